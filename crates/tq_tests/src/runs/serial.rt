//! Scripts whose answers are compared with those of the slow machine.

ghost use Rattle.std.specs.Prelude.{◌≤◌};

use super::{outside, run_words};
use std::alloc::{AllocError, Global};
use std::test::Fail;
use tq_machine::Machine;
use tq_model::{Answer, Request};
use tq_run::{Status, run};
use tq_script::{first_line, parse};

// The machine over several runs. It has taken no more numbers than steps.
#[derive(Drop)]
pub struct Serial {
    machine: Machine,
    steps: u32,
    ghost taken: { machine.next ≤ steps },
}

impl Serial {
    // Over one device, which is blank.
    pub fn new(alloc: Global) -> Result<Serial, AllocError> {
        let machine = Machine::new(alloc, 1)?;
        Ok(Serial { machine, steps: 0 })
    }

    pub fn step(&mut self, request: &Request) -> Result<Answer, AllocError> {
        if self.steps >= 1000000 {
            return Err(AllocError);
        }
        self.steps += 1;
        self.machine.step(request)
    }

    // The text of a run with this script.
    pub fn run(&mut self, alloc: Global, script: &[u8]) -> Result<Vec<u8>, AllocError> {
        let mut text = tq_print::answer(alloc, 0, &self.step(&Request::Boot)?)?;
        let mut rest = script;
        let mut number = 1u64;
        while let Some((line, behind)) = first_line(rest) {
            let answer = self.step(&parse(alloc, line)?)?;
            text.extend_from_slice(&tq_print::answer(alloc, number, &answer)?)?;
            number = number.wrapping_add(1);
            rest = behind;
        }
        Ok(text)
    }
}

const RUNS: [&[u8]; 3] = [
    b"# a device that is blank
lidl 0
qspacecreate S dev=0 pages=64 queues=2 trans=4 msgs=3 error=E memory=9
qcreate S Q
tpenqueue 1 S Q data=\"a\"
tpdequeue 1 S Q
crdl 0 9000
crdl 0 5 site=4294967296
crdl 0 6 site=4294967295
crdl 0 6
lidl 0
\t
lidl 7
lidl 8
qspacecreate S dev=1 pages=64 queues=2 trans=4 msgs=3 error=E memory=9
qspacecreate S dev=0 pages=65 queues=2 trans=4 msgs=3 error=E memory=9
qspacecreate S dev=0 pages=39 queues=2 trans=4 msgs=3 error=E memory=9
qspacecreate S dev=0 pages=64 queues=0 trans=0 msgs=0 error=E memory=9
qspacecreate S dev=0 pages=64 queues=2 trans=4 msgs=3 error=E memory=16777217
qspacecreate S dev=0 pages=64 queues=2 trans=4 msgs=3 error=E
qspacecreate S dev=0 pages=64 queues=2 trans=4 msgs=3 error=-E memory=9
qspacecreate S dev=0 pages=64 pages=64 queues=2 trans=4 msgs=3 error=E memory=9
qspacecreate S memory=9 error=E msgs=3 trans=4 queues=2 pages=64 dev=0
qspacecreate S dev=0 pages=64 queues=2 trans=4 msgs=3 error=E memory=9
qspacecreate T dev=0 pages=64 queues=2 trans=4 msgs=3 error=E memory=9
qspacecreate 1234567890123456 dev=0 pages=64 queues=2 trans=4 msgs=3 error=E memory=9
lidl 0
tpdequeue 1 S Q
qcreate S Q
qcreate S Q
qcreate T Q
qcreate S
qcreate S Q order=fifo
qcreate S 123456789012345
qcreate S R
tpenqueue 1 S Q flags=TPQMSGID data=\"first\"
tpenqueue 32 S Q flags=TPNOFLAGS data=\"\\22\\5C\\\"\\\\ \\00\\fF\"
tpenqueue 33 S Q data=\"x\"
  tpenqueue  1  S  Q  data=\"\"  flags=TPQMSGID|TPNOFLAGS  \x20
tpenqueue 1 S Q data=\"four\"
tpenqueue 1 S Q data=\"four
tpenqueue 1 S Q data=\"\\4\"
tpenqueue 1 S Q flags=TPQMSGID|TPQMSGID data=\"x\"
tpenqueue 1 S Q flags=TPQTOP data=\"x\"
tpenqueue 1 S Q flags=TPQMSGID
tpenqueue 1 S R data=\"x\"
tpenqueue 1 R Q data=\"x\"
tpdequeue 1 S Q flags=TPQMSGID
tpdequeue 1 S 123456789012345
tpdequeue 0 S Q
tpenqueue 1 S 123456789012345 flags=TPQMSGID data=\"other\"
boot
",
    b"lidl 0
tpdequeue 2 S 123456789012345 flags=TPQMSGID
tpdequeue 2 S 123456789012345
tpenqueue 3 S Q flags=TPQMSGID data=\"new\"
tpenqueue 3 S Q flags=TPQMSGID data=\"too many\"
tpdequeue 2 S Q
tpdequeue 2 S Q flags=TPQMSGID|TPNOFLAGS
crdl 0 6
qspacecreate S dev=0 pages=64 queues=2 trans=4 msgs=3 error=E memory=9
qcreate S Q

#
tpenqueue 4 S 123456789012345 data=\"\\c3\\a9\"
tpenqueue 4 S 123456789012345 flags=TPQMSGID data=\"\\7f\"
tpenqueue 4 S 123456789012345 flags=TPQMSGID data=\"one more\"
boot
tpdequeue 5 S Q flags=TPQMSGID
tpdequeue 5 S Q flags=TPQMSGID
tpenqueue 4 S Q flags=TPQMSGID data=\"kept\"
tpdequeue 5 S 123456789012345 call=TPNOTRAN
tpdequeue 5 S 123456789012345",
    b"tpdequeue 1 S 123456789012345 flags=TPQMSGID
tpdequeue 1 S 123456789012345 flags=TPQMSGID
tpdequeue 1 S Q flags=TPQMSGID
tpdequeue 1 S Q flags=TPQMSGID
tpenqueue 1 S Q flags=TPQMSGID data=\"a\"
tpenqueue 1 S 123456789012345 flags=TPQMSGID data=\"b\"
tpenqueue 1 S Q flags=TPQMSGID data=\"c\"
tpenqueue 1 S Q flags=TPQMSGID data=\"d\"
tpdequeue 1 S Q
tpenqueue 1 S Q flags=TPQMSGID data=\"e\"
tpdequeue 1 S Q
tpdequeue 1 S 123456789012345
tpdequeue 1 S Q
tpdequeue 1 S Q
tpdequeue 1 S E
qcreate S E
lidl 0
moment 7
qcreate s Q
crdl 0 6 site=x
tpenqueue 1 S Q flags=TPQMSGID data=\"last\"
lidl 0
",
];

#[test]
fn runs_give_the_machine_s_text(rt: HostRuntime) -> Result<(), Fail> {
    let alloc = rt.alloc();
    let words = run_words(alloc)?;
    let mut serial = Serial::new(alloc)?;
    let mut image = Vec::new(alloc);
    for script in RUNS {
        let mut host = outside(alloc, &image, script, 5)?;
        assert!(rt; run(alloc, &words, &mut host) == Status::Done);
        assert!(rt; host.output() == serial.run(alloc, script)?.as_slice());
        image = Vec::from_slice(alloc, host.image(0))?;
    }
    Ok(())
}
