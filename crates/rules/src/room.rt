// The room that a job has.

// How many places each list has that a job is done on, and how many bytes the picture's buffer.
#[derive(Clone, Copy)]
pub struct Room {
    pub corners: usize,
    pub triangles: usize,
    pub partners: usize,
    pub heights: usize,
    pub counts: usize,
    pub packed: usize,
    pub picture: usize,
}
