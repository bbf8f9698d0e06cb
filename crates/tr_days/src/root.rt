/// Where a mark comes from.
#[derive(Clone, Copy, Debug, PartialEq, Eq)]
pub enum Root {
    /// A clocking of the AFD.
    Original {
        /// The clocking's number in the AFD (NSR), 1 to 999,999,999.
        nsr: u32,
        /// The place, counted from 0, of the plan's disregard that names the number. `None` where the clocking counts.
        dropped: Option<u32>,
    },
    /// A mark that is put in by hand.
    Included {
        /// Its place among the plan's included marks, counted from 0.
        place: u32,
    },
}
