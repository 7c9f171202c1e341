//! What is true of frames and of the bytes of every link, for whoever builds links on them.
ghost use Rattle.node_frames.specs.Link.{BytesOfFrames, BytesComeAfter, FrameOpensRest, FrameIsOffered, OneOpens, TwoReadingsAreOne};
ghost use Rattle.node_frames.specs.Table.{OneSpelling, OneFrame};

/// A law: a frame has one spelling, and bytes spell at most one frame.
pub fn one_spelling()
    ensures bytes { OneSpelling }
    ensures frame { OneFrame }
{}

/// A law: the frames that the bytes of a link begin with are spelled by the bytes before the rest.
pub fn bytes_of_frames()
    ensures { BytesOfFrames }
{}

/// A law: bytes that come after those of a link change none of its frames.
pub fn bytes_come_after()
    ensures { BytesComeAfter }
{}

/// A law: a frame that the rest of a link's bytes begins with is the next frame of the link.
pub fn frame_opens_rest()
    ensures { FrameOpensRest }
{}

/// A law: a frame that is offered is spelled by the bytes that it adds.
pub fn frame_is_offered()
    ensures { FrameIsOffered }
{}

/// A law: two readings of the bytes of a link are one.
pub fn two_readings_are_one()
    ensures opens { OneOpens }
    ensures readings { TwoReadingsAreOne }
{}
