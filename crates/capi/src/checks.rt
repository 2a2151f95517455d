// The overlap check, for C.
ghost use Rattle.pairs.specs.Promise.{Checking};
ghost use Rattle.capi.specs.Seen.{checked_seen, FromChecked};

use basics::Fault;

// nahui_checked. The refusal is a number, 0 for none: the C interface.
#[repr(C)]
#[derive(Drop)]
pub struct Checked {
    pub refusal: u32,
    pub entry: u32,
    pub pairs: u32,
    pub unprobed: u32,
}

impl From<Result<pairs::Checked, Fault>> for Checked {
    ghost from_gives = { FromChecked };

    fn from(outcome: Result<pairs::Checked, Fault>) -> Checked {
        match outcome {
            Ok(checked) => Checked {
                refusal: 0,
                entry: 0,
                pairs: checked.pairs,
                unprobed: checked.unprobed,
            },
            Err(fault) => Checked {
                refusal: fault.refusal.number(),
                entry: fault.entry,
                pairs: 0,
                unprobed: 0,
            },
        }
    }
}

#[unsafe(no_mangle)]
pub extern "C" fn nahui_check(
    log: &[u8],
    p: u32,
    tables: &mut [u16],
    memory: &mut [u32],
    res: &mut [u32],
) -> Checked
    ensures { Checking log.now p tables.old memory.old res.old (checked_seen result)
        tables.new memory.new res.new }
{
    Checked::from(pairs::check(log, p, tables, memory, res))
}
