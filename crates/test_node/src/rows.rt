//! What is played on nodes.

/// What a pass reads, and the number that it gives.
#[derive(Clone, Copy)]
pub enum Read {
    /// The moment of the marker of `#a`: 0 where there is none.
    Marker,
    /// How many changes the delta since 0 has.
    Delta,
    /// 1 where the message is shown, and 0 where it isn't.
    Shown(&'static str),
    /// The moment of the one floor that is due.
    Due,
}

/// A step, with moments in milliseconds.
#[derive(Clone, Copy)]
pub enum RowStep {
    /// The pass of that place reads, and gets this number.
    Read(usize, Read, u64),
    /// The first pass puts a marker of `#a`, and the second one learns of it.
    TellMark(u64),
    /// The first pass puts the message m1, and the second one learns of it.
    TellPost(u64),
    /// The last pass takes a marker of `#a` from a peer.
    Take(u64),
    /// The first pass puts as many messages as a packet may carry.
    Packet,
    /// The first pass puts markers of the first of three channels, so many.
    Markers(usize),
    /// The same with three. The row ends here where the put was refused.
    MarkersAtOnce,
}

/// What is played on a node.
#[derive(Clone, Copy)]
pub enum Play {
    Steps(&'static [RowStep]),
    /// Three markers, on the writing half of the closed node.
    Half,
    /// Puts beside asks, in two threads, or in four where there are as many passes.
    Threads,
}

/// A row: its name, how many passes the node is to have, what is played on it, and how many changes are put in the end.
pub type Row = (&'static str, usize, Play, u64);

/// Rows of few changes.
pub const SHORT: [Row; 6] = [
    ("nothing, by one pass", 1, Play::Steps(&[]), 0),
    ("told and taken", 2, Play::Steps(&TOLD), 3),
    ("three markers", 1, Play::Steps(&[RowStep::Markers(3)]), 3),
    ("one marker", 1, Play::Steps(&[RowStep::Markers(1)]), 1),
    ("three markers, on a half", 2, Play::Half, 3),
    (
        "three markers at once",
        1,
        Play::Steps(&[RowStep::MarkersAtOnce]),
        3,
    ),
];

/// Rows of many changes, or of many passes.
pub const LONG: [Row; 4] = [
    ("nothing, by 64 passes", 64, Play::Steps(&[]), 0),
    ("a packet", 1, Play::Steps(&PACKET), 256),
    ("one puts, one asks", 2, Play::Threads, 500),
    ("two put, two ask", 4, Play::Threads, 1000),
];

const PACKET: [RowStep; 2] = [RowStep::Packet, RowStep::Read(0, Read::Delta, 256)];

const TOLD: [RowStep; 11] = [
    RowStep::Read(1, Read::Marker, 0),
    RowStep::TellMark(5000),
    RowStep::Read(1, Read::Marker, 5000),
    RowStep::Read(0, Read::Marker, 5000),
    RowStep::Read(0, Read::Delta, 1),
    RowStep::Take(6000),
    RowStep::Read(1, Read::Marker, 6000),
    RowStep::TellPost(1000),
    RowStep::Read(0, Read::Shown("m1"), 1),
    RowStep::Read(0, Read::Shown("m2"), 0),
    RowStep::Read(0, Read::Due, 2000),
];
