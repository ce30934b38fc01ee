//! How many things a model file may have (this profile's choice).

/// Signals of a file.
pub const SIGNALS_AT_MOST: u32 = 256;
/// Active classes of a file.
pub const CLASSES_AT_MOST: u32 = 64;
/// Objects of a file.
pub const OBJECTS_AT_MOST: u32 = 64;
/// Parameters of a signal.
pub const PARAMETERS_AT_MOST: u32 = 8;
