// The blocks that select a port again and replace something of it, told on the screen of check.
use crate::block::Block;
use crate::found::Found;
use crate::walk::Task;
use checklist::things;
use checklist::things::Replacement;
use checklist::typed::File;
use page::Pen;
use registers::bits;
use std::io::Result as Written;

// How many things were told, the file, and the block that is gone through.
#[derive(Drop)]
pub(crate) struct SelectedAgain<'a> {
    pen: &'a mut Pen,
    count: &'a mut u64,
    file: File<'a>,
    block: Block,
}

impl<'a> SelectedAgain<'a> {
    pub(crate) fn new(pen: &'a mut Pen, count: &'a mut u64, file: File<'a>) -> SelectedAgain<'a> {
        SelectedAgain {
            pen,
            count,
            file,
            block: Block::none(),
        }
    }

    // The heading of a port that is selected again: a thing of its own for the first such port of a block.
    fn name_port(&mut self, port: u8) -> Written<()> {
        // A register that is replaced was set in an earlier block, whose selection ticked the port.
        let Some(first) = self.block.earlier_of(port) else {
            return Ok(());
        };
        if self.block.replaced != 0 {
            return things::selected_too(self.pen, *self.count, self.file, port, first);
        }
        let again = self.block.selection;
        things::selected_again(self.pen, self.count, self.file, port, first, again)
    }

    // A register of a port that is replaced.
    fn replaced(&mut self, found: &Found, port: u8, origin: u64) -> Written<()> {
        if !bits::is_set(self.block.replaced, port) {
            self.name_port(port)?;
            self.block.replace_on(port);
        }
        let replacement = Replacement {
            port,
            change: found.change(port),
            origin,
            write: found.write.number,
        };
        things::replaced(self.pen, *self.count, self.file, replacement)
    }

    // A port that the block selects again, and of which it replaces nothing.
    fn too(&mut self, port: u8) -> Written<()> {
        match self.block.earlier_of(port) {
            Some(first) if !bits::is_set(self.block.replaced, port) => {
                things::selected_too(self.pen, *self.count, self.file, port, first)
            }
            _ => Ok(()),
        }
    }

    // The block is over: where it replaced something, its other ports that were selected before are told too.
    fn end_block(&mut self) -> Written<()> {
        if self.block.replaced == 0 {
            return Ok(());
        }
        for port in 0..4 {
            self.too(port)?;
        }
        Ok(())
    }
}

impl Task for SelectedAgain<'_> {
    fn at_write(&mut self, found: &Found) -> Written<()> {
        if found.is_selection() {
            self.end_block()?;
            self.block = Block::begin(found);
            return Ok(());
        }
        for port in 0..4 {
            if let Some(origin) = found.port(port).replaced {
                self.replaced(found, port, origin)?;
            }
        }
        Ok(())
    }

    fn at_end(&mut self) -> Written<()> {
        self.end_block()
    }
}
