// What the host brings back of a command. The host has taken the sense data apart.
use geometry::Address;

// An answer of the drive. Which of its numbers mean something goes by the command and the sense triple.
#[derive(Clone, Copy)]
pub struct Reply {
    // The sense triple: key, additional sense code and its qualifier.
    pub key: u8,
    pub asc: u8,
    pub ascq: u8,
    // Frames still buffered, of a READ POSITION answered good.
    pub buffered: u32,
    // The failed address and how many addresses to skip, of a write error.
    pub position: Address,
    pub skip: u8,
}
