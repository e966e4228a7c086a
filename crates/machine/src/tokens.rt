// What order the calls on a machine come in is checked when a program is compiled: each call needs the pass or ticket of its phase.

// The running pass: the script runs, after so many collections.
#[derive(Drop)]
pub struct Pass {
    pub(crate) collections: u32,
}
