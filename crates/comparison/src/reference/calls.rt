// The nine calls.
ghost use Rattle.std.specs.Iterator.{at_most};

use crate::reference::checks;
use crate::reference::checks::{Block, ZEROS};
use crate::reference::device::{CutAt, Device};
use bitwise::add_times;

// Why a call was refused.
#[derive(Clone, Copy)]
pub enum Refusal {
    BlockLength,
    ShortWork,
    NoBlock,
    NoStripe,
    NoSlot,
    Sizes,
    NotStarted,
    Live,
    Dead,
    Rebuilt,
    // the stripe, and how many columns it lost
    PastRepair(usize, usize),
    // how many cells are free
    Full(usize),
    // the stripe
    Pending(usize),
    NotLaidOut,
    // the cell
    Damaged(usize),
    Overfull,
    Cut(CutAt),
}

// The layer in which a refusal arises.
#[derive(Clone, Copy, PartialEq)]
pub enum Layer {
    Backplane,
    Log,
    Stripe,
    Array,
}

impl Refusal {
    pub(crate) fn number(self) -> u32 {
        match self {
            Refusal::BlockLength => 1,
            Refusal::ShortWork => 2,
            Refusal::NoBlock => 3,
            Refusal::NoStripe => 4,
            Refusal::NoSlot => 5,
            Refusal::Sizes => 6,
            Refusal::NotStarted => 11,
            Refusal::Live => 12,
            Refusal::Dead => 13,
            Refusal::Rebuilt => 14,
            Refusal::PastRepair(_, _) => 15,
            Refusal::Full(_) => 16,
            Refusal::Pending(_) => 17,
            Refusal::NotLaidOut => 18,
            Refusal::Damaged(_) => 19,
            Refusal::Overfull => 19,
            Refusal::Cut(_) => 20,
        }
    }

    pub(crate) fn details(self) -> (usize, usize) {
        match self {
            Refusal::PastRepair(stripe, lost) => (stripe, lost),
            Refusal::Full(free) => (free, 0),
            Refusal::Pending(stripe) => (stripe, 0),
            Refusal::Damaged(cell) => (cell, 0),
            Refusal::Cut(CutAt::OfBlock(slot, block)) => (slot, block),
            Refusal::Cut(CutAt::OfCell(cell)) => (255, cell),
            _ => (0, 0),
        }
    }

    pub(crate) fn layer(self) -> Layer {
        match self {
            Refusal::Live | Refusal::Dead | Refusal::Cut(_) => Layer::Backplane,
            Refusal::Full(_) | Refusal::Pending(_) => Layer::Log,
            Refusal::Damaged(_) | Refusal::Overfull => Layer::Log,
            Refusal::NoBlock | Refusal::NoStripe | Refusal::PastRepair(_, _) => Layer::Stripe,
            _ => Layer::Array,
        }
    }
}

impl From<CutAt> for Refusal {
    fn from(c: CutAt) -> Refusal {
        Refusal::Cut(c)
    }
}

#[derive(Clone, Copy)]
enum Kind {
    // of a block of this column
    Write(usize),
    Fold,
}

// A record's head.
#[derive(Clone, Copy)]
struct Record {
    at: usize,
    kind: Kind,
    stripe: usize,
    cells: usize,
}

// The records of the log one after the other, up to the first that is damaged.
#[derive(Clone, Copy)]
struct Records<'a> {
    reference: &'a Reference,
    at: usize,
    used: usize,
    // a record is a cell at least
    most: usize,
}

impl<'a> Iterator for Records<'a> {
    type Item = Result<Record, Refusal>;

    ghost remaining = { λ s. at_most s.most };

    fn next(&mut self) -> Option<Result<Record, Refusal>> {
        if self.most == 0 || self.at > self.used {
            return None;
        }
        self.most -= 1;
        let at = self.at;
        let Some(record) = self.reference.record_at(at, self.used) else {
            self.most = 0;
            return Some(Err(Refusal::Damaged(at)));
        };
        self.at = at.saturating_add(record.cells);
        Some(Ok(record))
    }
}

fn number_in(x: &Block, at: usize) -> usize {
    match x.get(at..at.saturating_add(4)) {
        Some([a, b, c, d]) => u32::from_le_bytes([*a, *b, *c, *d]) as usize,
        _ => 0,
    }
}

fn put_number(x: &mut Block, at: usize, n: usize) {
    let bytes = n.to_le_bytes();
    for (place, byte) in x.iter_mut().skip(at).zip(bytes.iter().take(4)) {
        *place = *byte;
    }
}

#[derive(Drop)]
pub struct Reference {
    pub device: Device,
    // the code's number, which is also its count of check rows
    pub rows: usize,
    pub started: bool,
    used: usize,
    good: [usize; 16],
}

impl Reference {
    // Over a device with the power on and all disks in; `rows` is the code's number and its count of check rows.
    pub(crate) fn new(device: Device, rows: usize) -> Reference {
        Reference {
            device,
            rows,
            started: false,
            used: 0,
            good: [0; 16],
        }
    }

    fn columns(&self) -> usize {
        self.device.slots().saturating_sub(self.rows)
    }

    fn within_limits(&self) -> bool {
        let k = self.columns();
        let blocks = self.device.blocks;
        let cells = self.device.cells();
        k >= 2 && k <= 12 && blocks >= 1 && blocks <= 65536 && cells >= 8 && cells <= 4096
    }

    fn header(&self, used: usize, good: &[usize; 16]) -> Block {
        let mut x = ZEROS;
        x[0..4].copy_from_slice(b"PLOG");
        x[4] = (self.rows % 256) as u8;
        x[5] = (self.columns() % 256) as u8;
        x[6] = (self.device.slots() % 256) as u8;
        put_number(&mut x, 8, self.device.blocks);
        put_number(&mut x, 12, self.device.cells());
        put_number(&mut x, 16, used);
        for (at, g) in (20..84usize).step_by(4).zip(good.iter()) {
            put_number(&mut x, at, *g);
        }
        x
    }

    fn good_stripes(&self, d: usize) -> usize {
        self.good.get(d).copied().unwrap_or(0)
    }

    fn slot(&self, s: usize, c: usize) -> usize {
        let n = self.device.slots();
        if n == 0 { 0 } else { s.saturating_add(c) % n }
    }

    fn is_good(&self, s: usize, c: usize) -> bool {
        let d = self.slot(s, c);
        self.device.is_live(d) && s < self.good_stripes(d)
    }

    fn lost_columns(&self, s: usize) -> usize {
        (0..self.device.slots())
            .filter(|c| !self.is_good(s, *c))
            .count()
    }

    // The record whose head is in cell `at`, if it is whole and ends by cell `used`.
    fn record_at(&self, at: usize, used: usize) -> Option<Record> {
        let x = self.device.cell(at);
        let column = x[1] as usize;
        let kind = match x[0] {
            1 if column < self.columns() => Kind::Write(column),
            2 if column == 0 => Kind::Fold,
            _ => return None,
        };
        let cells = match kind {
            Kind::Write(_) => 3,
            Kind::Fold => self.rows.saturating_add(1),
        };
        let stripe = number_in(&x, 4);
        let ends = at.saturating_add(cells) <= used.saturating_add(1);
        let zeros = x[2] == 0 && x[3] == 0 && x[8..].iter().all(|b| *b == 0);
        if stripe >= self.device.blocks || !ends || !zeros {
            return None;
        }
        Some(Record {
            at,
            kind,
            stripe,
            cells,
        })
    }

    // The records in the cells up to `used`.
    fn records(&self, used: usize) -> Records<'_> {
        Records {
            reference: self,
            at: 1,
            used,
            most: used,
        }
    }

    // How many records of the stripe are pending.
    fn pending(&self, s: usize, used: usize) -> usize {
        let mut n = 0usize;
        for record in self.records(used) {
            match record {
                Ok(r) if r.stripe == s => {
                    n = match r.kind {
                        Kind::Write(_) => n.saturating_add(1),
                        Kind::Fold => 0,
                    };
                }
                _ => {}
            }
        }
        n
    }

    // The sum of the shares of the stripe's pending differences in check row `row`.
    fn pending_sum(&self, s: usize, row: usize) -> Block {
        let mut total = ZEROS;
        for record in self.records(self.used) {
            match record {
                Ok(r) if r.stripe == s => match r.kind {
                    Kind::Write(c) => {
                        let delta = self.device.cell(r.at.saturating_add(1));
                        add_times(&mut total, checks::weight(row, c), &delta);
                    }
                    Kind::Fold => total = ZEROS,
                },
                _ => {}
            }
        }
        total
    }

    fn owes(&self, s: usize, used: usize) -> bool {
        self.pending(s, used) > 0
    }

    // How many stripes have pending records, or are `also`.
    fn owing(&self, used: usize, also: Option<usize>) -> usize {
        (0..self.device.blocks)
            .filter(|s| also == Some(*s) || self.owes(*s, used))
            .count()
    }

    fn lost_flags(&self, s: usize) -> [bool; 16] {
        std::array::from_fn(|c| c < self.device.slots() && !self.is_good(s, c))
    }

    // The blocks of a stripe as they are stored, its checks with the pending shares.
    fn stored_row(&self, s: usize) -> [Block; 16] {
        let mut row = [ZEROS; 16];
        let k = self.columns();
        for (c, x) in row.iter_mut().take(self.device.slots()).enumerate() {
            *x = self.device.block(self.slot(s, c), s);
            if c >= k {
                add_times(x, 1, &self.pending_sum(s, c - k));
            }
        }
        row
    }

    // The row of a stripe, with its lost columns filled in.
    fn row(&self, s: usize) -> [Block; 16] {
        let mut row = self.stored_row(s);
        let lost = self.lost_flags(s);
        checks::fill_lost(&mut row, &lost, self.columns(), self.rows);
        row
    }

    // The last cell.
    fn last(&self) -> usize {
        self.device.cells().saturating_sub(1)
    }

    // The cells in use, and those of a parity record for each of so many stripes.
    fn room(&self, used: usize, owing: usize) -> usize {
        used.saturating_add(owing.saturating_mul(self.rows.saturating_add(1)))
    }

    fn work_fits(&self, work: usize) -> Result<(), Refusal> {
        if work < 10240 {
            Err(Refusal::ShortWork)
        } else {
            Ok(())
        }
    }

    fn open(&self) -> Result<(), Refusal> {
        if self.started {
            Ok(())
        } else {
            Err(Refusal::NotStarted)
        }
    }

    fn repairable(&self, s: usize) -> Result<(), Refusal> {
        let lost = self.lost_columns(s);
        if lost > self.rows {
            Err(Refusal::PastRepair(s, lost))
        } else {
            Ok(())
        }
    }

    // The stripe and the column of a block number.
    fn located(&self, block: usize) -> Result<(usize, usize), Refusal> {
        let k = self.columns();
        if k == 0 || block / k >= self.device.blocks {
            Err(Refusal::NoBlock)
        } else {
            Ok((block / k, block % k))
        }
    }

    // A store failed: the array is not started any more.
    fn ended<T>(&mut self, r: Result<T, Refusal>) -> Result<T, Refusal> {
        if let Err(Refusal::Cut(_)) = &r {
            self.started = false;
        }
        r
    }

    pub(crate) fn format(&mut self, work: usize) -> Result<(), Refusal> {
        self.work_fits(work)?;
        if !self.within_limits() {
            return Err(Refusal::Sizes);
        }
        if self.device.disks.iter().any(|disk| !disk.live) {
            return Err(Refusal::Dead);
        }
        self.device.on = true;
        let r = self.format_stores();
        self.ended(r)
    }

    fn format_stores(&mut self) -> Result<(), Refusal> {
        self.device.store_cell(0, ZEROS)?;
        for d in 0..self.device.slots() {
            for b in 0..self.device.blocks {
                self.device.store_block(d, b, ZEROS)?;
            }
        }
        let mut good = [0usize; 16];
        for g in good.iter_mut().take(self.device.slots()) {
            *g = self.device.blocks;
        }
        let x = self.header(0, &good);
        self.device.store_cell(0, x)?;
        self.used = 0;
        self.good = good;
        self.started = true;
        Ok(())
    }

    pub(crate) fn write(&mut self, work: usize, block: usize, bytes: &[u8]) -> Result<(), Refusal> {
        let Ok(new) = Block::try_from(bytes) else {
            return Err(Refusal::BlockLength);
        };
        self.work_fits(work)?;
        let (s, c) = self.located(block)?;
        self.open()?;
        self.repairable(s)?;
        let owing = self.owing(self.used, Some(s));
        if self.room(self.used.saturating_add(3), owing) > self.last() {
            return Err(Refusal::Full(self.last().saturating_sub(self.used)));
        }
        let r = self.write_stores(s, c, new);
        self.ended(r)
    }

    fn write_stores(&mut self, s: usize, c: usize, new: Block) -> Result<(), Refusal> {
        let row = self.row(s);
        let mut delta = checks::column(&row, c);
        add_times(&mut delta, 1, &new);
        let mut head = ZEROS;
        head[0] = 1;
        head[1] = (c % 256) as u8;
        put_number(&mut head, 4, s);
        let u = self.used;
        self.device.store_cell(u.saturating_add(1), head)?;
        self.device.store_cell(u.saturating_add(2), delta)?;
        self.device.store_cell(u.saturating_add(3), new)?;
        self.count_cells(u.saturating_add(3))?;
        self.store_column(s, c, new)
    }

    // Stores a block of a stripe, if its column is not lost.
    fn store_column(&mut self, s: usize, c: usize, x: Block) -> Result<(), Refusal> {
        if self.is_good(s, c) {
            let d = self.slot(s, c);
            self.device.store_block(d, s, x)?;
        }
        Ok(())
    }

    // Cell 0 with another count of cells in use.
    fn count_cells(&mut self, used: usize) -> Result<(), Refusal> {
        let good = self.good;
        let x = self.header(used, &good);
        self.device.store_cell(0, x)?;
        self.used = used;
        Ok(())
    }

    pub(crate) fn read(&self, work: usize, block: usize, length: usize) -> Result<Block, Refusal> {
        if length != 512 {
            return Err(Refusal::BlockLength);
        }
        self.work_fits(work)?;
        let (s, c) = self.located(block)?;
        self.open()?;
        if self.is_good(s, c) {
            return Ok(self.device.block(self.slot(s, c), s));
        }
        self.repairable(s)?;
        Ok(checks::column(&self.row(s), c))
    }

    pub(crate) fn fold(&mut self, work: usize, s: usize) -> Result<usize, Refusal> {
        self.work_fits(work)?;
        if s >= self.device.blocks {
            return Err(Refusal::NoStripe);
        }
        self.open()?;
        let n = self.pending(s, self.used);
        // only a damaged log has no room for the record: it counts as not started
        if n > 0 && self.room(self.used, 1) > self.last() {
            return Err(Refusal::NotStarted);
        }
        self.repairable(s)?;
        if n == 0 {
            return Ok(0);
        }
        let r = self.fold_stores(s);
        self.ended(r)?;
        Ok(n)
    }

    fn fold_stores(&mut self, s: usize) -> Result<(), Refusal> {
        let row = self.row(s);
        let k = self.columns();
        let mut head = ZEROS;
        head[0] = 2;
        put_number(&mut head, 4, s);
        let first = self.used.saturating_add(1);
        self.device.store_cell(first, head)?;
        for r in 1..=self.rows {
            let x = checks::column(&row, k.saturating_add(r - 1));
            self.device.store_cell(first.saturating_add(r), x)?;
        }
        self.count_cells(first.saturating_add(self.rows))?;
        for r in 0..self.rows {
            let c = k.saturating_add(r);
            self.store_column(s, c, checks::column(&row, c))?;
        }
        Ok(())
    }

    pub(crate) fn clear(&mut self, work: usize) -> Result<(), Refusal> {
        self.work_fits(work)?;
        self.open()?;
        let lowest = (0..self.device.blocks).find(|s| self.owes(*s, self.used));
        if let Some(s) = lowest {
            return Err(Refusal::Pending(s));
        }
        let r = self.count_cells(0);
        self.ended(r)
    }

    pub(crate) fn pull(&mut self, d: usize) -> Result<(), Refusal> {
        if d >= self.device.slots() {
            return Err(Refusal::NoSlot);
        }
        self.device.pull(d);
        Ok(())
    }

    pub(crate) fn fit(&mut self, work: usize, d: usize) -> Result<(), Refusal> {
        self.work_fits(work)?;
        if d >= self.device.slots() {
            return Err(Refusal::NoSlot);
        }
        self.open()?;
        if self.device.is_live(d) {
            return Err(Refusal::Live);
        }
        let r = self.store_good(d, 0);
        self.ended(r)?;
        self.device.fit(d);
        Ok(())
    }

    // Cell 0 with other good stripes for a slot.
    fn store_good(&mut self, d: usize, g: usize) -> Result<(), Refusal> {
        let mut good = self.good;
        if let Some(place) = good.get_mut(d) {
            *place = g;
        }
        let x = self.header(self.used, &good);
        self.device.store_cell(0, x)?;
        self.good = good;
        Ok(())
    }

    pub(crate) fn rebuild(&mut self, work: usize, d: usize) -> Result<usize, Refusal> {
        self.work_fits(work)?;
        if d >= self.device.slots() {
            return Err(Refusal::NoSlot);
        }
        self.open()?;
        if !self.device.is_live(d) {
            return Err(Refusal::Dead);
        }
        let s = self.good_stripes(d);
        if s >= self.device.blocks {
            return Err(Refusal::Rebuilt);
        }
        self.repairable(s)?;
        let r = self.rebuild_stores(d, s);
        self.ended(r)?;
        Ok(s.saturating_add(1))
    }

    fn rebuild_stores(&mut self, d: usize, s: usize) -> Result<(), Refusal> {
        let k = self.columns();
        let column = (0..self.device.slots()).find(|c| self.slot(s, *c) == d);
        if let Some(c) = column {
            let mut x = checks::column(&self.row(s), c);
            if c >= k {
                add_times(&mut x, 1, &self.pending_sum(s, c - k));
            }
            self.device.store_block(d, s, x)?;
        }
        self.store_good(d, s.saturating_add(1))
    }

    pub(crate) fn start(&mut self, work: usize) -> Result<(), Refusal> {
        self.work_fits(work)?;
        self.device.on = true;
        self.started = false;
        let last = self.judge()?;
        let r = self.finish(last);
        self.ended(r)?;
        self.started = true;
        Ok(())
    }

    // Reads cell 0 and the log; the last record, if there is one.
    fn judge(&mut self) -> Result<Option<Record>, Refusal> {
        if !self.within_limits() {
            return Err(Refusal::NotLaidOut);
        }
        let x = self.device.cell(0);
        let used = number_in(&x, 16);
        let mut good = [0usize; 16];
        for (at, g) in (20..84usize).step_by(4).zip(good.iter_mut()) {
            *g = number_in(&x, at);
        }
        if !self.may_be_good(&good) || used > self.last() || x != self.header(used, &good) {
            return Err(Refusal::NotLaidOut);
        }
        self.used = used;
        self.good = good;
        let last = self.walk(used)?;
        if self.room(used, self.owing(used, None)) > self.last() {
            return Err(Refusal::Overfull);
        }
        Ok(last)
    }

    // No slot has more good stripes than there are, and none that is not there has any.
    fn may_be_good(&self, good: &[usize; 16]) -> bool {
        let slots = self.device.slots();
        good.iter().take(slots).all(|g| *g <= self.device.blocks)
            && good.iter().skip(slots).all(|g| *g == 0)
    }

    fn walk(&self, used: usize) -> Result<Option<Record>, Refusal> {
        let mut last = None;
        for record in self.records(used) {
            last = Some(record?);
        }
        Ok(last)
    }

    // Stores once more what the last record says.
    fn finish(&mut self, last: Option<Record>) -> Result<(), Refusal> {
        let Some(r) = last else {
            return Ok(());
        };
        match r.kind {
            Kind::Write(c) => {
                let x = self.device.cell(r.at.saturating_add(2));
                self.store_column(r.stripe, c, x)
            }
            Kind::Fold => self.finish_fold(r.at, r.stripe),
        }
    }

    // Stores the checks that the fold record in cell `at` holds.
    fn finish_fold(&mut self, at: usize, s: usize) -> Result<(), Refusal> {
        let k = self.columns();
        for row in 0..self.rows {
            let x = self.device.cell(at.saturating_add(1).saturating_add(row));
            self.store_column(s, k.saturating_add(row), x)?;
        }
        Ok(())
    }
}
