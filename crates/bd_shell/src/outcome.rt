use bd_keys::Items;

/// What a `sync` acknowledged.
#[derive(Clone, Copy, Debug, PartialEq, Eq)]
pub struct Ack {
    /// The device's calls at that moment.
    pub calls: u64,
    /// The accepted commands that are on the device from then on.
    pub count: u64,
}

/// How a run ended.
#[derive(Debug, Drop)]
pub struct Outcome {
    /// The status that the program ends with.
    pub status: u8,
    /// The acknowledgements in their order.
    pub acks: Items<Ack>,
}
