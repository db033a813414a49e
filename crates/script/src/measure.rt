// What a script amounts to.

#[derive(Clone, Copy)]
pub struct Measure {
    // bytes
    pub length: u32,
    pub frames: u32,
    pub microseconds: u32,
}
