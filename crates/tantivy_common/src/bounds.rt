// Bounds of ranges.
ghost use Rattle.std.specs.Prelude.{◌≡◌, ◌↔◌, IsTrue, Ok, Err, IfOk, IfErr, IsNone, option_copied};
ghost use Rattle.std.specs.Option.{option_or};
ghost use Rattle.std.specs.Fn.{FnReturnsAt};
ghost use Rattle.tantivy_common.specs.Bounds.{inner, IsMapped, IsMappedOk, IsTransformed, Fails, FailsInTurn};

use std::ops::Bound;

/// What a transformation makes of a bound's value.
#[derive(Drop)]
pub enum TransformBound<T> {
    /// Another bound.
    NewBound(Bound<T>),
    /// Another value; the bound keeps its kind.
    Existing(T),
}

/// The value of a bound.
pub fn inner_bound<T>(val: &Bound<T>) -> Option<&T>
    ensures { option_copied result ≡ inner val.now }
{
    match val {
        Bound::Included(value) | Bound::Excluded(value) => Some(value),
        Bound::Unbounded => None,
    }
}

/// A bound of the same kind at the transformed value.
pub fn map_bound<T, U, F: Fn(&T) -> U>(bound: &Bound<T>, transform: F) -> Bound<U>
    requires { F.IsAlwaysCallable transform }
    ensures { IsMapped (λ x y. FnReturnsAt F.Fn transform x y) bound.now result }
{
    map_by(bound, &transform)
}

/// The same, where the transformation may fail.
pub fn map_bound_res<T, U, E, F: Fn(&T) -> Result<U, E>>(
    bound: &Bound<T>,
    transform: F,
) -> Result<Bound<U>, E>
    requires { F.IsAlwaysCallable transform }
    ensures ok { IfOk result (IsMapped (λ x y. FnReturnsAt F.Fn transform x (Ok y)) bound.now) }
    ensures err { IfErr result (Fails (λ x e. FnReturnsAt F.Fn transform x (Err e)) bound.now) }
{
    try_map_by(bound, &transform)
}

// As `map_bound`, by a transformation that is lent.
fn map_by<T, U, F: Fn(&T) -> U>(bound: &Bound<T>, transform: &F) -> Bound<U>
    requires { F.IsAlwaysCallable transform.now }
    ensures { IsMapped (λ x y. FnReturnsAt F.Fn transform.now x y) bound.now result }
{
    match bound {
        Bound::Included(value) => Bound::Included(transform(value)),
        Bound::Excluded(value) => Bound::Excluded(transform(value)),
        Bound::Unbounded => Bound::Unbounded,
    }
}

// As `map_bound_res`, by a transformation that is lent.
fn try_map_by<T, U, E, F: Fn(&T) -> Result<U, E>>(
    bound: &Bound<T>,
    transform: &F,
) -> Result<Bound<U>, E>
    requires { F.IsAlwaysCallable transform.now }
    ensures ok { IfOk result (IsMapped (λ x y. FnReturnsAt F.Fn transform.now x (Ok y)) bound.now) }
    ensures err { IfErr result (Fails (λ x e. FnReturnsAt F.Fn transform.now x (Err e)) bound.now) }
{
    match bound {
        Bound::Included(value) => match transform(value) {
            Ok(new) => Ok(Bound::Included(new)),
            Err(e) => Err(e),
        },
        Bound::Excluded(value) => match transform(value) {
            Ok(new) => Ok(Bound::Excluded(new)),
            Err(e) => Err(e),
        },
        Bound::Unbounded => Ok(Bound::Unbounded),
    }
}

/// The bound that the transformation makes of the value: another one, or one of the same kind.
pub fn transform_bound_inner<T, U, F: Fn(&T) -> TransformBound<U>>(
    bound: &Bound<T>,
    transform: F,
) -> Bound<U>
    requires { F.IsAlwaysCallable transform }
    ensures { IsTransformed (λ x t. FnReturnsAt F.Fn transform x t) bound.now result }
{
    match bound {
        Bound::Included(value) => match transform(value) {
            TransformBound::NewBound(new) => new,
            TransformBound::Existing(new) => Bound::Included(new),
        },
        Bound::Excluded(value) => match transform(value) {
            TransformBound::NewBound(new) => new,
            TransformBound::Existing(new) => Bound::Excluded(new),
        },
        Bound::Unbounded => Bound::Unbounded,
    }
}

/// The same, where the transformation may fail.
pub fn transform_bound_inner_res<T, U, E, F: Fn(&T) -> Result<TransformBound<U>, E>>(
    bound: &Bound<T>,
    transform: F,
) -> Result<Bound<U>, E>
    requires { F.IsAlwaysCallable transform }
    ensures ok { IfOk result (IsTransformed (λ x t. FnReturnsAt F.Fn transform x (Ok t)) bound.now) }
    ensures err { IfErr result (Fails (λ x e. FnReturnsAt F.Fn transform x (Err e)) bound.now) }
{
    match bound {
        Bound::Included(value) => match transform(value) {
            Ok(TransformBound::NewBound(new)) => Ok(new),
            Ok(TransformBound::Existing(new)) => Ok(Bound::Included(new)),
            Err(e) => Err(e),
        },
        Bound::Excluded(value) => match transform(value) {
            Ok(TransformBound::NewBound(new)) => Ok(new),
            Ok(TransformBound::Existing(new)) => Ok(Bound::Excluded(new)),
            Err(e) => Err(e),
        },
        Bound::Unbounded => Ok(Bound::Unbounded),
    }
}

/// A range by its two bounds.
#[derive(Debug, Drop)]
pub struct BoundsRange<T> {
    pub lower_bound: Bound<T>,
    pub upper_bound: Bound<T>,
}

impl<T> BoundsRange<T> {
    /// The range of these bounds.
    pub fn new(lower_bound: Bound<T>, upper_bound: Bound<T>) -> Self
        ensures { result ≡ record { lower_bound = lower_bound; upper_bound = upper_bound } }
    {
        BoundsRange {
            lower_bound,
            upper_bound,
        }
    }

    /// Neither bound has a value.
    pub fn is_unbounded(&self) -> bool
        ensures { IsTrue result ↔ (IsNone (inner self.now.lower_bound) × IsNone (inner self.now.upper_bound)) }
    {
        matches!(self.lower_bound, Bound::Unbounded) && matches!(self.upper_bound, Bound::Unbounded)
    }

    /// The first value of a bound, the lower one's first.
    pub fn get_inner(&self) -> Option<&T>
        ensures { option_copied result ≡ option_or (inner self.now.lower_bound) (inner self.now.upper_bound) }
    {
        inner_bound(&self.lower_bound).or(inner_bound(&self.upper_bound))
    }

    /// Both bounds at the transformed values, of the same kinds.
    pub fn map_bound<U, F: Fn(&T) -> U>(&self, transform: F) -> BoundsRange<U>
        requires { F.IsAlwaysCallable transform }
        ensures lower { IsMapped (λ x y. FnReturnsAt F.Fn transform x y) self.now.lower_bound result.lower_bound }
        ensures upper { IsMapped (λ x y. FnReturnsAt F.Fn transform x y) self.now.upper_bound result.upper_bound }
    {
        BoundsRange {
            lower_bound: map_by(&self.lower_bound, &transform),
            upper_bound: map_by(&self.upper_bound, &transform),
        }
    }

    /// The same, where the transformation may fail. The lower bound is mapped first.
    pub fn map_bound_res<U: Drop, E, F: Fn(&T) -> Result<U, E>>(
        &self,
        transform: F,
    ) -> Result<BoundsRange<U>, E>
        requires { F.IsAlwaysCallable transform }
        ensures lower { IfOk result (λ range. IsMappedOk (FnReturnsAt F.Fn transform) self.now.lower_bound range.lower_bound) }
        ensures upper { IfOk result (λ range. IsMappedOk (FnReturnsAt F.Fn transform) self.now.upper_bound range.upper_bound) }
        ensures err { IfErr result (FailsInTurn (FnReturnsAt F.Fn transform) self.now.lower_bound self.now.upper_bound) }
    {
        let lower_bound = match try_map_by(&self.lower_bound, &transform) {
            Ok(bound) => bound,
            Err(e) => return Err(e),
        };
        match try_map_by(&self.upper_bound, &transform) {
            Ok(upper_bound) => Ok(BoundsRange {
                lower_bound,
                upper_bound,
            }),
            Err(e) => Err(e),
        }
    }

    /// The range whose bounds the transformations make of the values: another bound, or one of the same kind.
    pub fn transform_inner<U, F: Fn(&T) -> TransformBound<U>, G: Fn(&T) -> TransformBound<U>>(
        &self,
        lower: F,
        upper: G,
    ) -> BoundsRange<U>
        requires lower_called { F.IsAlwaysCallable lower }
        requires upper_called { G.IsAlwaysCallable upper }
        ensures lower { IsTransformed (λ x t. FnReturnsAt F.Fn lower x t) self.now.lower_bound result.lower_bound }
        ensures upper { IsTransformed (λ x t. FnReturnsAt G.Fn upper x t) self.now.upper_bound result.upper_bound }
    {
        BoundsRange {
            lower_bound: transform_bound_inner(&self.lower_bound, lower),
            upper_bound: transform_bound_inner(&self.upper_bound, upper),
        }
    }
}
