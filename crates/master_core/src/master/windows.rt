//! The windows of the downlink, of which the core hears (TS 38.323, 5.2.1: the COUNTs that are not confirmed are fewer than
//! Window_Size).

ghost use Rattle.std.specs.Prelude.{◌≡◌, IfOk, OnOk};
ghost use Rattle.node_rules.specs.CommandTable.{row};
ghost use Rattle.node_rules.specs.Held.{held, holding};
ghost use Rattle.node_rules.specs.Master.{low_rises, told_by, window_told};

use super::Master;
use dc_base::{Dir, DrbId, Gen, Memory, Note};
use node_parts::{noted, quiet};
use node_rules::{Effects, Window};

impl Master {
    /// The window of a bearer.
    pub(super) fn window(&self, id: DrbId) -> Option<Window>
        ensures { result ≡ held id self.now.windows }
    {
        self.windows.get(&id).copied()
    }

    /// The bearer has this window from now on, or none.
    pub(super) fn set_window(&mut self, id: DrbId, window: Option<Window>) -> Result<(), Memory>
        ensures { OnOk result (self.new ≡ record self.old { windows = holding id window self.old.windows }) }
    {
        match window {
            Some(window) => {
                self.windows.insert(id, window)?;
                Ok(())
            }
            None => {
                self.windows.remove(&id);
                Ok(())
            }
        }
    }

    /// The Low of the master's own anchor may have risen.
    pub(super) fn low_rises(&mut self, id: DrbId, low: Option<u32>) -> Result<Effects, Memory>
        ensures { IfOk result (λ out. (self.new, out) ≡ low_rises self.old id low) }
    {
        match low {
            Some(count) => self.tell_window(id, count),
            None => Ok(quiet(self.alloc)),
        }
    }

    /// A secondary anchor tells its Low: one of an earlier establishment, or of a bearer that is dropped, is ignored.
    pub(super) fn take_low(&mut self, id: DrbId, g: Gen, count: u32) -> Result<Effects, Memory>
        ensures { IfOk result (λ out. (self.new, out) ≡ told_by self.old id g count (row self.old.proc.table id)) }
    {
        let Some(row) = self.proc.table().row(id) else {
            return Ok(quiet(self.alloc));
        };
        if g < row.est {
            return Ok(quiet(self.alloc));
        }
        self.tell_window(id, count)
    }

    // A COUNT is told as Low: the window begins there, if that is further than before.
    fn tell_window(&mut self, id: DrbId, count: u32) -> Result<Effects, Memory>
        ensures { IfOk result (λ out. (self.new, out) ≡ window_told self.old id count (held id self.old.windows)) }
    {
        let Some(window) = self.window(id) else {
            return Ok(quiet(self.alloc));
        };
        if window.told < count {
            let told = Window {
                accepted: window.accepted,
                told: count,
            };
            self.set_window(id, Some(told))?;
            let dir = Dir::Dl;
            noted(self.alloc, Note::Freed { id, dir, count })
        } else {
            Ok(quiet(self.alloc))
        }
    }
}
