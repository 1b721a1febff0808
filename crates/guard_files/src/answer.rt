//! What is answered to a request that reads no stream.

/// What goes to standard output, and the status with which the program ends.
#[derive(Drop)]
pub struct Answer {
    pub out: Vec<u8>,
    pub status: u8,
}

/// What is answered with remarks, which go to standard error.
#[derive(Drop)]
pub struct Remarked {
    pub out: Vec<u8>,
    pub remarks: Vec<u8>,
    pub status: u8,
}
