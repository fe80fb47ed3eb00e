// A backplane of plain lists under a fuse.
use crate::reference::checks::{Block, ZEROS};
use std::alloc::{AllocError, Global};

#[derive(Drop)]
pub struct Disk {
    pub live: bool,
    pub blocks: Vec<Block>,
}

// The next `passes` stores pass, and of the one after them the cut lets `fresh` new bytes through.
#[derive(Clone, Copy)]
struct Fuse {
    passes: u32,
    fresh: u32,
}

#[derive(Drop)]
pub struct Device {
    // the blocks on each disk
    pub blocks: usize,
    pub on: bool,
    pub disks: Vec<Disk>,
    pub log: Vec<Block>,
    fuse: Option<Fuse>,
}

// Where the power failed.
#[derive(Clone, Copy)]
pub enum CutAt {
    // slot and block
    OfBlock(usize, usize),
    OfCell(usize),
}

// More new bytes than a block has.
#[derive(Drop)]
pub struct PastBlock;

impl Device {
    // Three numbers and not the backplane's `Sizes`: the reference takes nothing from the array's crates.
    pub(crate) fn new(
        heap: Global,
        slots: usize,
        blocks: usize,
        cells: usize,
    ) -> Result<Device, AllocError> {
        let mut disks = Vec::new(heap);
        for _ in 0..slots {
            let blocks = vec![in heap; ZEROS; blocks]?;
            disks.push(Disk { live: true, blocks })?;
        }
        let log = vec![in heap; ZEROS; cells]?;
        Ok(Device {
            blocks,
            on: true,
            disks,
            log,
            fuse: None,
        })
    }

    pub(crate) fn slots(&self) -> usize {
        self.disks.len()
    }

    pub(crate) fn cells(&self) -> usize {
        self.log.len()
    }

    pub(crate) fn is_live(&self, d: usize) -> bool {
        self.disks.get(d).is_some_and(|disk| disk.live)
    }

    pub(crate) fn block(&self, d: usize, b: usize) -> Block {
        match self.disks.get(d) {
            Some(disk) => disk.blocks.get(b).copied().unwrap_or(ZEROS),
            None => ZEROS,
        }
    }

    pub(crate) fn cell(&self, c: usize) -> Block {
        self.log.get(c).copied().unwrap_or(ZEROS)
    }

    fn set_block(&mut self, d: usize, b: usize, x: Block) {
        if let Some(disk) = self.disks.get_mut(d) {
            if let Some(place) = disk.blocks.get_mut(b) {
                *place = x;
            }
        }
    }

    pub(crate) fn set_cell(&mut self, c: usize, x: Block) {
        if let Some(place) = self.log.get_mut(c) {
            *place = x;
        }
    }

    // More than 512 new bytes are refused, and the earlier setting stays.
    pub(crate) fn set_fuse(&mut self, passes: u32, fresh: u32) -> Result<(), PastBlock> {
        if fresh > 512 {
            return Err(PastBlock);
        }
        self.fuse = Some(Fuse { passes, fresh });
        Ok(())
    }

    // How many new bytes the next store lets through, if it is cut; one store fewer passes otherwise.
    fn burn(&mut self) -> Option<usize> {
        let Fuse { passes, fresh } = self.fuse?;
        if passes > 0 {
            self.fuse = Some(Fuse {
                passes: passes - 1,
                fresh,
            });
            return None;
        }
        self.fuse = None;
        self.on = false;
        Some(fresh as usize)
    }

    pub(crate) fn store_block(&mut self, d: usize, b: usize, x: Block) -> Result<(), CutAt> {
        let Some(fresh) = self.burn() else {
            self.set_block(d, b, x);
            return Ok(());
        };
        let mut mixed = self.block(d, b);
        for (old, new) in mixed.iter_mut().zip(x.iter()).take(fresh) {
            *old = *new;
        }
        self.set_block(d, b, mixed);
        Err(CutAt::OfBlock(d, b))
    }

    // A cell is stored whole, or not at all.
    pub(crate) fn store_cell(&mut self, c: usize, x: Block) -> Result<(), CutAt> {
        let cut = self.burn();
        if cut != Some(0) {
            self.set_cell(c, x);
        }
        match cut {
            None => Ok(()),
            Some(_) => Err(CutAt::OfCell(c)),
        }
    }

    pub(crate) fn pull(&mut self, d: usize) {
        if let Some(disk) = self.disks.get_mut(d) {
            disk.live = false;
        }
    }

    // A new disk: every byte is 229.
    pub(crate) fn fit(&mut self, d: usize) {
        if let Some(disk) = self.disks.get_mut(d) {
            disk.live = true;
            for block in disk.blocks.iter_mut() {
                *block = [229; 512];
            }
        }
    }
}
