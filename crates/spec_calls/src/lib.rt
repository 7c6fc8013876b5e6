// Documents 01 and 02 on the chart buffers that a caller lends, as definitions. The types that code shares are a chart lent to be read, and
// one lent to be written.

#![tactic(auto)]

ghost use Rattle.std.specs.Prelude.{◌≡◌};
ghost use Rattle.spec_calls.specs.Lent.{viewed, viewed_mut};

// A chart that a caller lends to be read: its four lists and its counts.
#[derive(Clone, Copy)]
pub struct ChartView<'a> {
    pub table: &'a [u16],
    pub keys: &'a [u32],
    pub levels: &'a [u8],
    pub items: &'a [u16],
    pub triangles: usize,
    pub entries: usize,
}

// A chart that a caller lends to be written.
#[derive(Drop)]
pub struct ChartMut<'a> {
    pub table: &'a mut [u16],
    pub keys: &'a mut [u32],
    pub levels: &'a mut [u8],
    pub items: &'a mut [u16],
    pub triangles: usize,
    pub entries: usize,
}

impl<'a> ChartMut<'a> {
    // The same chart, to be read.
    pub fn view(&self) -> ChartView<'_>
        ensures { viewed result ≡ viewed_mut self.now }
    {
        ChartView {
            table: self.table,
            keys: self.keys,
            levels: self.levels,
            items: self.items,
            triangles: self.triangles,
            entries: self.entries,
        }
    }
}
