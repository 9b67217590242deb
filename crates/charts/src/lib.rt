// The day of samples that `minutes` counts, drawn: the wedge, the axes, and a disc for each sample.
#![tactic(auto)]

mod day;
mod judge;
mod lines;
mod picture;
mod reach;

pub use day::draw_day;
pub use picture::frame;

// The largest second and the largest load, at which the axes end.
#[derive(Clone, Copy)]
pub struct Extent {
    pub second: u32,
    pub load: u32,
}
