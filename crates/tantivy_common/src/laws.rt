// The law of paths, as a call that does nothing.
ghost use Rattle.tantivy_common.specs.Path.{PushedAreJoined};

/// A path that segments are pushed to, one after another, is the segments joined by the separator.
pub fn pushed_segments_are_joined()
    ensures { PushedAreJoined }
{}
