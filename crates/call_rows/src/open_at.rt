//! An open call, by its admission.

/// Which admission an open call is, from 0, and its units of 100 bit/s now.
#[derive(Clone, Copy)]
pub struct OpenAt {
    pub admission: u32,
    pub units: u32,
}
