// Charts in buffers: the buffers, how many places of each are lent to a call, and the pairs.

use spec_calls::{ChartMut, ChartView};

// The buffers of a chart.
#[derive(Clone, Copy)]
pub struct Buffers<const TABLE: usize, const LIST: usize> {
    pub table: [u16; TABLE],
    pub keys: [u32; LIST],
    pub levels: [u8; LIST],
    pub items: [u16; LIST],
}

impl<const TABLE: usize, const LIST: usize> Buffers<TABLE, LIST> {
    // A checksum of what went before, and all places, lent or not.
    pub fn checksum(&self, from: u32) -> u32 {
        let sum = crate::checksum(&self.keys, crate::checksum(&self.table, from));
        crate::checksum(&self.items, crate::checksum(&self.levels, sum))
    }
}

// Names a buffer of a chart.
#[derive(Clone, Copy)]
pub enum Buffer {
    Table,
    Keys,
    Levels,
    Items,
}

// How many places of each buffer of a chart are lent, and its counts.
#[derive(Clone, Copy)]
pub struct Lent {
    pub table: usize,
    pub keys: usize,
    pub levels: usize,
    pub items: usize,
    pub triangles: usize,
    pub entries: usize,
}

impl Lent {
    // The asked lengths, and no triangle and no entry.
    pub fn asked() -> Lent {
        Lent {
            table: base_tables::TABLE_NUMBERS,
            keys: base_tables::MOST_ENTRIES,
            levels: base_tables::MOST_ENTRIES,
            items: base_tables::MOST_ENTRIES,
            triangles: 0,
            entries: 0,
        }
    }
}

// Places of a chart's table, of each of its lists, and of the pairs; the asked lengths are a little shorter.
pub const TABLE: usize = 3100;

pub const LIST: usize = 16500;

pub const PAIRS: usize = 8300;

// A chart, and what is lent of it.
#[derive(Clone, Copy)]
pub struct Chart {
    pub buffers: Buffers<TABLE, LIST>,
    pub lent: Lent,
}

impl Chart {
    // What a call that reads the chart is lent.
    pub fn view(&self) -> ChartView<'_> {
        ChartView {
            table: crate::first_places(&self.buffers.table, self.lent.table),
            keys: crate::first_places(&self.buffers.keys, self.lent.keys),
            levels: crate::first_places(&self.buffers.levels, self.lent.levels),
            items: crate::first_places(&self.buffers.items, self.lent.items),
            triangles: self.lent.triangles,
            entries: self.lent.entries,
        }
    }

    // What a call that changes the chart is lent.
    pub fn view_mut(&mut self) -> ChartMut<'_> {
        let lent = self.lent;
        let Buffers {
            table,
            keys,
            levels,
            items,
        } = &mut self.buffers;
        ChartMut {
            table: crate::first_places_mut(table, lent.table),
            keys: crate::first_places_mut(keys, lent.keys),
            levels: crate::first_places_mut(levels, lent.levels),
            items: crate::first_places_mut(items, lent.items),
            triangles: lent.triangles,
            entries: lent.entries,
        }
    }

    // n places of a buffer are lent.
    pub fn lend(&mut self, buffer: Buffer, n: usize) {
        match buffer {
            Buffer::Table => self.lent.table = n,
            Buffer::Keys => self.lent.keys = n,
            Buffer::Levels => self.lent.levels = n,
            Buffer::Items => self.lent.items = n,
        }
    }

    // The chart has other counts.
    pub fn set_counts(&mut self, triangles: usize, entries: usize) {
        self.lent = Lent {
            triangles,
            entries,
            ..self.lent
        };
    }

    // x at a place of a buffer, if it has that place.
    pub fn put(&mut self, buffer: Buffer, place: usize, x: u32) {
        match buffer {
            Buffer::Table => crate::put(&mut self.buffers.table, place, crate::low_half(x)),
            Buffer::Keys => crate::put(&mut self.buffers.keys, place, x),
            Buffer::Levels => crate::put(&mut self.buffers.levels, place, crate::low_byte(x)),
            Buffer::Items => crate::put(&mut self.buffers.items, place, crate::low_half(x)),
        }
    }

    // x at every place of a buffer.
    pub fn fill(&mut self, buffer: Buffer, x: u32) {
        match buffer {
            Buffer::Table => self.buffers.table.fill(crate::low_half(x)),
            Buffer::Keys => self.buffers.keys.fill(x),
            Buffer::Levels => self.buffers.levels.fill(crate::low_byte(x)),
            Buffer::Items => self.buffers.items.fill(crate::low_half(x)),
        }
    }
}

// Names one of two charts.
#[derive(Clone, Copy)]
pub enum Which {
    First,
    Second,
}

// Two charts.
#[derive(Clone, Copy)]
pub struct Charts {
    pub first: Chart,
    pub second: Chart,
}

impl Charts {
    // The chart that is named.
    pub fn chart(&self, which: Which) -> &Chart {
        match which {
            Which::First => &self.first,
            Which::Second => &self.second,
        }
    }

    // The same, to be changed.
    pub fn chart_mut(&mut self, which: Which) -> &mut Chart {
        match which {
            Which::First => &mut self.first,
            Which::Second => &mut self.second,
        }
    }
}

// The pairs, and how many places of them are lent.
#[derive(Clone, Copy)]
pub struct Pairs {
    pub list: [u16; PAIRS],
    pub lent: usize,
}

impl Pairs {
    // What a call that lists pairs is lent.
    pub fn view_mut(&mut self) -> &mut [u16] {
        let n = self.lent;
        crate::first_places_mut(&mut self.list, n)
    }
}

// The two charts and the pairs.
#[derive(Clone, Copy)]
pub struct State {
    pub charts: Charts,
    pub pairs: Pairs,
}

impl State {
    // A checksum of all places of both charts and of the pairs.
    pub fn checksum(&self) -> u32 {
        let first = self.charts.first.buffers.checksum(0);
        let both = self.charts.second.buffers.checksum(first);
        crate::checksum(&self.pairs.list, both)
    }
}
