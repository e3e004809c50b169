// What a search connects.

// Two pins of a net that a wire is to join: any numbers may stand here, and the calls ask what they need of them.
#[derive(Clone, Copy, PartialEq, Eq, Debug)]
pub struct Connection {
    pub net: u16,
    // the place where the wire starts
    pub start: u32,
    // and where it ends
    pub goal: u32,
}
