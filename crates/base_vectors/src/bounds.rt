// Bounds that are mapped, or that fail to be.
use std::ops::Bound;
use tantivy_common::{TransformBound, map_bound_res, transform_bound_inner_res};

#[test]
fn bounds_with_half_the_number(rt: HostRuntime) {
    let half = |n: &u32| if *n % 2 == 0 { Ok(*n / 2) } else { Err(*n) };
    assert_eq!(rt;
        map_bound_res(&Bound::Included(6), half),
        Ok(Bound::Included(3))
    );
    assert_eq!(rt; map_bound_res(&Bound::Excluded(7), half), Err(7));
    let kept = |n: &u32| {
        if *n % 2 == 0 {
            Ok(TransformBound::Existing(*n / 2))
        } else {
            Err(*n)
        }
    };
    assert_eq!(rt;
        transform_bound_inner_res(&Bound::Excluded(6), kept),
        Ok(Bound::Excluded(3))
    );
}
