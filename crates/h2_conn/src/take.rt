//! Taking a frame.

ghost use Rattle.std.specs.Prelude.{◌≡◌, IfOk, OnOk, OnErr, true, ◌∷◌, None, Some, option_to_list};
ghost use Rattle.h2_frames.specs.Sound.{IsFrame};
ghost use Rattle.h2_frames.specs.declared.frame.Frame.{Frame};
ghost use Rattle.h2_record.specs.Record.{Record, In};
ghost use Rattle.h2_record.specs.Events.{events_of};
ghost use Rattle.h2_record.specs.Faults.{first_fault_of};
ghost use Rattle.h2_conn.specs.Stands.{Stands, OpenStands, FaultStands};
ghost use Rattle.h2_conn.specs.Producing.{waiting_control};
ghost use Rattle.h2_conn.specs.Taking.{Settled, Fails, Follows};

use crate::conn::Conn;
use crate::taken::Taken;
use h2_frames::{Frame, H2Fault};
use h2_record::{Control, Event};
use outside::Memory;
use std::alloc::Global;

impl Conn {
    /// Takes the client's next frame, and answers what it tells. After a connection error it tells nothing more.
    ///
    /// Where memory is refused, every further frame is answered so.
    pub fn take(&mut self, alloc: Global, frame: Frame) -> Result<Option<Event>, Memory>
        requires { IsFrame frame }
        ensures stands { OnOk result ((r : Record) → Stands self.old r → Stands self.new (In frame ∷ r)) }
        ensures events { IfOk result (λ event. (r : Record) → Stands self.old r → option_to_list event ≡ events_of r frame) }
        ensures lost { OnErr result (self.new.is_lost ≡ true) }
        ensures stays_lost { self.old.is_lost ≡ true → OnOk result ⊥ }
        ensures written { self.new.unwritten ≡ self.old.unwritten }
    {
        if self.is_lost {
            return Err(Memory);
        }
        if self.fault.is_some() {
            self.has_begun = true;
            return Ok(None);
        }
        // No step of a frame changes this number. It is put back so that none of their contracts has to say so.
        let unwritten = self.unwritten;
        let told = self.take_open(alloc, frame);
        self.unwritten = unwritten;
        match told {
            Ok(event) => {
                self.is_lost = false;
                Ok(event)
            }
            Err(Memory) => {
                self.is_lost = true;
                Err(Memory)
            }
        }
    }

    // A frame of a connection that met no error before.
    fn take_open(&mut self, alloc: Global, frame: Frame) -> Result<Option<Event>, Memory>
        requires { IsFrame frame }
        ensures { IfOk result (λ event. (r : Record) → OpenStands self.old r → Follows r frame event self.new) }
    {
        self.settle()?;
        if let Some(fault) = self.early_fault(&frame) {
            self.fail(fault)?;
            return Ok(Some(Event::Fault {
                code: fault.code,
                rule: fault.rule,
            }));
        }
        match self.serve(alloc, frame)? {
            Taken::Passes => {
                self.fault = None;
                Ok(None)
            }
            Taken::Tells(event) => {
                self.fault = None;
                Ok(Some(event))
            }
            Taken::Breaks(fault) => {
                self.fail(fault)?;
                Ok(Some(Event::Fault {
                    code: fault.code,
                    rule: fault.rule,
                }))
            }
        }
    }

    // The credit of the latest frame is given or kept.
    pub(crate) fn settle(&mut self) -> Result<(), Memory>
        ensures stands { OnOk result ((r : Record) → OpenStands self.old r → Settled self.new r) }
        ensures rest { OnOk result (self.new ≡ record self.old { control = waiting_control self.old; owed = None; kept = self.new.kept }) }
        ensures fault { self.new.fault ≡ self.old.fault }
        ensures lost { self.new.is_lost ≡ self.old.is_lost }
    {
        let Some(owed) = self.owed else {
            return Ok(());
        };
        let given = self.latest_credit();
        self.owed = None;
        if let Some(credit) = given {
            self.control.push_back(credit)?;
        } else {
            self.kept.add(owed.stream, owed.bytes)?;
        }
        Ok(())
    }

    // A connection error: GOAWAY waits behind the control frames, and nothing else does.
    fn fail(&mut self, fault: H2Fault) -> Result<(), Memory>
        ensures stands { OnOk result ((r : Record) → (frame : Frame) → first_fault_of r ≡ None → Fails r frame fault self.old → FaultStands self.new fault (In frame ∷ r)) }
        ensures fault { OnOk result (self.new.fault ≡ Some fault) }
        ensures lost { self.new.is_lost ≡ self.old.is_lost }
    {
        self.control.push_back(Control::Goaway {
            last: self.streams.last(),
            code: fault.code,
        })?;
        self.answers.clear();
        self.has_begun = true;
        self.fault = Some(fault);
        Ok(())
    }
}
