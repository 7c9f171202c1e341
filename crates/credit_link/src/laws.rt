//! What is true of the two ends of a link, whatever calls led there.
ghost use Rattle.credit_link.specs.Joined.{FramesAreAPrefix, NoFaultStandsNext, EachByteIsACredit, OwedAreHeld};

/// A law: where what was received is a prefix of what was sent, the frames given are the first of those
/// offered.
pub fn frames_are_a_prefix()
    ensures { FramesAreAPrefix }
{}

/// A law: there, no fault of a frame or of the link's end comes.
pub fn no_fault_stands_next()
    ensures { NoFaultStandsNext }
{}

/// A law: there, each byte of the credit pipe is a credit.
pub fn each_byte_is_a_credit()
    ensures { EachByteIsACredit }
{}

/// A law: there, no more credits are owed than frames are held.
pub fn owed_are_held()
    ensures { OwedAreHeld }
{}
