use registration::Limits;

/// Limits with four stations.
pub fn limits(rules: u32, radios: u32, mail: u32) -> Option<Limits> {
    Limits::new(rules, radios, mail, 4)
}

/// The limits that the program has.
pub fn usual() -> Option<Limits> {
    limits(16, 16, 256)
}
