//! Laws on lacing: RFC 9559, section 10.3 (Block Lacing).
ghost use Rattle.lacing.specs.Lace.{HeadSettlesSizes};
ghost use Rattle.lacing.specs.Reading.{ReadsTheLace};
ghost use Rattle.lacing.specs.Settled.{FrontSettlesLace};

/// Law: the kind of a lace, its head, its number of frames and its total number of bytes determine the sizes of its
/// frames. It is a law for readers of the proof; no function cites it.
pub fn head_settles_sizes()
    ensures { HeadSettlesSizes }
{}

/// Law: the definition that a reader follows finds frame sizes in bytes if and only if all these bytes are a lace with
/// these sizes. It is a law for readers of the proof; no function cites it.
pub fn the_lace_is_read()
    ensures { ReadsTheLace }
{}

/// Law: if `is_settled` is true for the first bytes of a block's data, the data are a lace, whatever follows these
/// bytes. It is a law for readers of the proof; no function cites it.
pub fn the_front_settles_the_lace()
    ensures { FrontSettlesLace }
{}
