//! Laws of streams, each the contract of a function that does nothing.
ghost use Rattle.dg_session.specs.Streams.{CutOneWay};

/// A stream is cut into lines in one way.
pub fn cut_one_way()
    ensures { CutOneWay }
{}
