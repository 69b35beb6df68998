use std::alloc::Global;

/// What a search needs to run, beside its disk.
pub struct Runner<'a, G, R> {
    /// The runtime.
    pub rt: &'a R,
    /// The allocator.
    pub alloc: Global,
    /// The gate that the workers pass.
    pub gate: &'a G,
}

// Its fields are borrowed, so nothing is freed.
impl<G, R> Drop for Runner<'_, G, R> {
    fn drop(self) {
        let Runner {
            rt: _,
            alloc: _,
            gate: _,
        } = self;
    }
}
