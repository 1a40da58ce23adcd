// What a receiver works with.

// An image, and how many of its bytes were saved.
#[derive(Clone, Copy)]
pub(crate) struct Image {
    pub(crate) bytes: [u8; 948],
    pub(crate) size: usize,
}

// A bank, the words that its calls work in, and images.
#[derive(Clone, Copy)]
pub(crate) struct Bench {
    pub(crate) bank: [u64; 4096],
    pub(crate) scratch: [u64; 8192],
    pub(crate) images: [Image; 8],
}

impl Bench {
    pub(crate) fn new() -> Self {
        Self {
            bank: [0; 4096],
            scratch: [0; 8192],
            images: [Image {
                bytes: [0; 948],
                size: 0,
            }; 8],
        }
    }
}
