// Where reading is.

// The bytes that follow, and how many items of arrays and entries of maps may yet be read.
#[derive(Clone, Copy)]
pub(crate) struct Place<'a> {
    pub(crate) left: u32,
    pub(crate) bytes: &'a [u8],
}
