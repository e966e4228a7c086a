// The buffers of a heap.

// Two buffers of words, equally long: objects lie in one, and a copy moves them to the other. `starts` has a flag for each word.
// Buffers have fixed lengths and `used` stands beside them, since they are the caller's and a heap allocates nothing;
// the flags stand apart from the words, since the words alone are handed out and copied.
#[derive(Drop)]
pub(crate) struct Halves {
    // The objects, one behind the other from index 0; in a copy, what is left of them.
    pub(crate) words: Vec<u32>,
    // Where a copy puts them, from index 0.
    pub(crate) idle: Vec<u32>,
    // Of each used word whether it is an object's header; in a copy, of each word in `idle`.
    pub(crate) starts: Vec<bool>,
    // How many words the objects take; in a copy, how many it has in `idle`.
    pub(crate) used: usize,
}
