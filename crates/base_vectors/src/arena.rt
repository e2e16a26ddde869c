// Worked rows.
ghost use Rattle.std.specs.Prelude.{OnOk};
ghost use Rattle.tantivy_stacker.specs.Beside.{AreBeside};
ghost use Rattle.tantivy_stacker.specs.Lists.{IsHeld};

use std::alloc::{AllocError, Global};
use std::test::Fail;
use tantivy_stacker::{
    ArenaError, ArenaHashMap, ExpUnrolledLinkedList, MemoryArena, SharedArenaHashMap, beside_laws,
    list_laws,
};

#[test]
fn one_page_is_full_after_its_last_byte(rt: HostRuntime) -> Result<(), Fail> {
    let mut arena = MemoryArena::with_page_limit(rt.alloc(), 1)?;
    assert!(rt; arena.allocate_space(1048575).is_ok());
    assert!(rt; arena.allocate_space(1).is_ok());
    assert!(rt; matches!(arena.allocate_space(1), Err(ArenaError::ArenaFull)));
    assert_eq!(rt; arena.len(), 1048576);
    Ok(())
}

#[test]
fn a_whole_page_and_one_more_byte(rt: HostRuntime) -> Result<(), Fail> {
    let mut arena = MemoryArena::with_page_limit(rt.alloc(), 2)?;
    assert!(rt; arena.allocate_space(1048576).is_ok());
    assert!(rt; arena.allocate_space(1048576).is_ok());
    assert!(rt; matches!(arena.allocate_space(1), Err(ArenaError::ArenaFull)));
    assert_eq!(rt; arena.mem_usage(), 2097152);
    Ok(())
}

#[test]
fn parts_of_a_list(rt: HostRuntime) -> Result<(), Fail> {
    list_laws();
    let mut arena = MemoryArena::new(rt.alloc())?;
    let mut list = ExpUnrolledLinkedList::default();
    list.append(&mut arena, &[1])?;
    list.append(&mut arena, &[2])?;
    list.append(&mut arena, &[3, 4])?;
    list.append(&mut arena, &[5])?;
    let mut bytes = Vec::new(rt.alloc());
    list.read_to_end(&arena, &mut bytes)?;
    assert_eq!(rt; bytes.as_slice(), [1, 2, 3, 4, 5].as_slice());
    Ok(())
}

fn write_both(
    arena: &mut MemoryArena,
    list: &mut ExpUnrolledLinkedList,
    bytes: &[u8],
    number: u32,
) -> Result<(), ArenaError>
    requires { IsHeld arena.old list.old }
    ensures { OnOk result (IsHeld arena.new list.new) }
{
    let mut writer = list.writer(arena);
    writer.extend_from_slice(bytes)?;
    writer.write_u32_vint(number)
}

// 300 takes two bytes.
#[test]
fn bytes_and_a_number_through_a_writer(rt: HostRuntime) -> Result<(), Fail> {
    list_laws();
    let mut arena = MemoryArena::new(rt.alloc())?;
    let mut list = ExpUnrolledLinkedList::default();
    write_both(&mut arena, &mut list, &[1, 2], 300)?;
    let mut bytes = Vec::new(rt.alloc());
    list.read_to_end(&arena, &mut bytes)?;
    assert_eq!(rt; bytes.as_slice(), [1, 2, 0x2c, 0x82].as_slice());
    Ok(())
}

#[test]
fn a_key_that_begins_another(rt: HostRuntime) -> Result<(), Fail> {
    let mut map: ArenaHashMap<u32> = ArenaHashMap::new(rt.alloc())?;
    map.mutate_or_create(b"abc", |_| 3)?;
    map.mutate_or_create(b"abcd", |_| 4)?;
    map.mutate_or_create(b"abc", |before| before.unwrap_or(0).saturating_add(2))?;
    assert_eq!(rt; map.len(), 2);
    assert_eq!(rt; map.get(b"abc"), Some(5));
    assert_eq!(rt; map.get(b"abcd"), Some(4));
    assert_eq!(rt; map.get(b"ab"), None);
    Ok(())
}

// Of longer keys the first 65,535 bytes count.
#[test]
fn keys_of_all_lengths(rt: HostRuntime) -> Result<(), Fail> {
    let long = vec![in rt.alloc(); 7u8; 70_000]?;
    let cut = &long[..65_535];
    let mut map: ArenaHashMap<u32> = ArenaHashMap::new(rt.alloc())?;
    map.mutate_or_create(b"", |_| 1)?;
    map.mutate_or_create(cut, |_| 2)?;
    map.mutate_or_create(&long, |before| before.unwrap_or(0).saturating_add(1))?;
    assert_eq!(rt; map.len(), 2);
    assert_eq!(rt; map.get(b""), Some(1));
    assert_eq!(rt; map.get(cut), Some(3));
    assert_eq!(rt; map.get(&long), None);
    Ok(())
}

// The 32-bit hashes of these two keys are the same.
#[test]
fn two_keys_of_one_hash(rt: HostRuntime) -> Result<(), Fail> {
    let mut map: ArenaHashMap<u32> = ArenaHashMap::new(rt.alloc())?;
    map.mutate_or_create(b"k119618", |_| 1)?;
    map.mutate_or_create(b"k281721", |_| 2)?;
    assert_eq!(rt; map.get(b"k119618"), Some(1));
    assert_eq!(rt; map.get(b"k281721"), Some(2));
    Ok(())
}

// A table of four places doubles at the call that finds two entries in it.
#[test]
fn a_table_doubles_when_half_full(rt: HostRuntime) -> Result<(), Fail> {
    let mut arena = MemoryArena::new(rt.alloc())?;
    let mut map: SharedArenaHashMap<u32> = SharedArenaHashMap::with_capacity(rt.alloc(), 4)?;
    map.mutate_or_create(b"a", &mut arena, |_| 1)?;
    map.mutate_or_create(b"b", &mut arena, |_| 2)?;
    assert_eq!(rt; map.mem_usage(), 4 * 8);
    map.mutate_or_create(b"b", &mut arena, |_| 3)?;
    assert_eq!(rt; map.mem_usage(), 8 * 8);
    assert_eq!(rt; map.len(), 2);
    Ok(())
}

#[test]
fn a_map_of_sixty_four_places(rt: HostRuntime) -> Result<(), Fail> {
    let mut map: ArenaHashMap<u32> = ArenaHashMap::with_capacity(rt.alloc(), 100)?;
    map.mutate_or_create(b"a", |_| 1)?;
    assert_eq!(rt; map.mem_usage(), 64 * 8 + 1_048_576);
    assert_eq!(rt; map.iter().count(), 1);
    Ok(())
}

fn add_bytes(
    arena: &mut MemoryArena,
    list: &mut ExpUnrolledLinkedList,
    map: &SharedArenaHashMap<u32>,
    bytes: &[u8],
) -> Result<(), ArenaError>
    requires { AreBeside 4 arena.old list.old map.now }
    ensures { OnOk result (AreBeside 4 arena.new list.new map.now) }
{
    beside_laws::<u32>();
    list.append(arena, bytes)
}

fn add_entry(
    arena: &mut MemoryArena,
    list: &ExpUnrolledLinkedList,
    map: &mut SharedArenaHashMap<u32>,
    number: u32,
) -> Result<(), ArenaError>
    requires { AreBeside 4 arena.old list.now map.old }
    ensures { OnOk result (AreBeside 4 arena.new list.now map.new) }
{
    beside_laws::<u32>();
    map.mutate_or_create(&number.to_le_bytes(), arena, |_| number)?;
    Ok(())
}

fn add_both(
    arena: &mut MemoryArena,
    list: &mut ExpUnrolledLinkedList,
    map: &mut SharedArenaHashMap<u32>,
    number: u8,
) -> Result<(), ArenaError>
    requires { AreBeside 4 arena.old list.old map.old }
    ensures { OnOk result (AreBeside 4 arena.new list.new map.new) }
{
    add_bytes(arena, list, map, &[number; 100])?;
    add_entry(arena, list, map, u32::from(number))
}

// The bytes of the list, and how many of the numbers below 40 the map has.
fn counted(
    alloc: Global,
    arena: &MemoryArena,
    list: &ExpUnrolledLinkedList,
    map: &SharedArenaHashMap<u32>,
) -> Result<(Vec<u8>, usize), AllocError>
    requires { AreBeside 4 arena.now list.now map.now }
{
    let mut bytes = Vec::new(alloc);
    list.read_to_end(arena, &mut bytes)?;
    let found = (0..40u32)
        .filter(|number| map.get(&number.to_le_bytes(), arena) == Some(*number))
        .count();
    Ok((bytes, found))
}

// The list takes nine blocks, and the map doubles five times.
#[test]
fn a_list_and_a_map_grow_in_one_arena(rt: HostRuntime) -> Result<(), Fail> {
    beside_laws::<u32>();
    let mut arena = MemoryArena::new(rt.alloc())?;
    let mut list = ExpUnrolledLinkedList::default();
    let mut map: SharedArenaHashMap<u32> = SharedArenaHashMap::with_capacity(rt.alloc(), 4)?;
    for number in 0..40u8 {
        add_both(&mut arena, &mut list, &mut map, number)?;
    }
    let (bytes, found) = counted(rt.alloc(), &arena, &list, &map)?;
    assert_eq!(rt; found, 40);
    assert_eq!(rt; bytes.len(), 4000);
    for number in 0..40u8 {
        let first = usize::from(number) * 100;
        assert_eq!(rt; bytes.get(first), Some(&number));
        assert_eq!(rt; bytes.get(first + 99), Some(&number));
    }
    Ok(())
}
