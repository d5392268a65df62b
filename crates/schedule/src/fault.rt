/// Why an event was refused. Nothing is changed then.
#[derive(Drop, Clone, Copy, Debug, PartialEq)]
pub enum StepFault {
    /// Its condition does not hold, or the world has no such station.
    NotNow,
    /// It ran out of memory.
    NoMemory,
}
