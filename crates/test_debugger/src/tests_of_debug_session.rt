//! Packets and their answers, which were worked out by hand, for one site of a short program.

use debug_session::{Session, SiteFacts, answer, command_in};
use fs_model::{Case, Outcome, Site, is_site};
use std::alloc::Global;
use std::process::Abort;
use test_asserts::same;
use test_programs::{STORES, case_of};

/// Of the 65 that instruction 2 stores in RAM, 6 sends and 7 halts with, bit 1 is flipped before: it is 67, `C`.
const SITE: Site = Site {
    cycle: 2,
    cell: 2,
    bit: 1,
};

const FACTS: SiteFacts = SiteFacts {
    weight: Some(1),
    outcome: Outcome::Silent,
};

// The data of packets, which are asked one after another, and the bytes of their answers.
static ANSWERS: [(&[u8], &[u8]); 42] = [
    (b"?", b"$T05#b9"),
    (b"p2", b"$43000000#87"),
    (b"p20", b"$08000020#8a"),
    (b"p21", b"$E02#a7"),
    (b"m80000000,4", b"$00000000#80"),
    (
        b"P2=00000000",
        b"$E.fail_debug shows the two runs and changes neither#e7",
    ),
    (b"s", b"$T05#b9"),
    (b"m80000000,4", b"$43000000#87"),
    (b"Z0,20000010,4", b"$OK#9a"),
    (b"Z0,20000018", b"$E02#a7"),
    (b"Z0,20000018,zz", b"$E02#a7"),
    (b"c", b"$T05swbreak:;#1d"),
    (b"z0,20000010", b"$E02#a7"),
    (b"z0,20000010,4", b"$OK#9a"),
    (b"T1", b"$OK#9a"),
    (b"T99", b"$E02#a7"),
    (b"Hc-1", b"$OK#9a"),
    (b"Hg99", b"$E02#a7"),
    (b"Hx1", b"$E02#a7"),
    (b"Z2,f0000000,4", b"$OK#9a"),
    (b"c", b"$T05watch:f0000000;#fb"),
    (b"z2,f0000000,4", b"$OK#9a"),
    (b"Z4,f0000008,4", b"$OK#9a"),
    (b"c", b"$O43#b6$T05awatch:f0000008;replaylog:end;#df"),
    (b"c", b"$T05awatch:f0000008;#64"),
    (b"s", b"$T05awatch:f0000008;#64"),
    (b"bs", b"$T05#b9"),
    (b"s", b"$O43#b6$T05#b9"),
    (b"z4,f0000008,4", b"$OK#9a"),
    (b"s", b"$W43#be"),
    (b"vRun;", b"$T05#b9"),
    (b"p2", b"$43000000#87"),
    (b"!", b"$OK#9a"),
    (b"vKill;1", b"$OK#9a"),
    (
        b"qRcmd,6c6173742d7772697465207832",
        b"$696e6a65637465642078322069732030303030303034332c207772697474656e20627920696e737472756374696f6e20\
          312061742032303030303030340a676f6c64656e20202078322069732030303030303034312c207772697474656e2062\
          7920696e737472756374696f6e20312061742032303030303030340a#49",
    ),
    (
        b"qRcmd,6c6173742d7772697465207839",
        b"$696e6a65637465642078392069732030303030303030302c206e6f74207772697474656e206265666f72650a676f6c64\
          656e20202078392069732030303030303030302c206e6f74207772697474656e206265666f72650a#ed",
    ),
    (
        b"qRcmd,6c6173742d777269746520783332",
        b"$6d6f6e69746f72206c6173742d77726974652074616b657320612072656769737465722c20783020746f207833312c20\
          73756368206173206d6f6e69746f72206c6173742d7772697465207831310a#87",
    ),
    (
        b"qRcmd,676f746f2078",
        b"$6d6f6e69746f7220676f746f2074616b65732061206e756d626572206f6620696e737472756374696f6e732c20737563\
          68206173206d6f6e69746f7220676f746f2032300a#45",
    ),
    (
        b"qRcmd,68656c66",
        b"$7468657265206973206e6f207375636820636f6d6d616e643a206d6f6e69746f722068656c70206c69737473207468656d0a#5d",
    ),
    (b"y", b"$#00"),
    (b"QStartNoAckMode", b"$OK#9a"),
    (b"k", b""),
];

fn all_answers(rt: &impl Abort, alloc: Global, case: &Case) {
    assert!(rt; is_site(case, 8, &SITE));
    let mut session = Session::new(alloc, case, SITE, FACTS).expect(rt, "memory");
    let mut text = Vec::new(alloc);
    for (number, (packet, wanted)) in ANSWERS.as_slice().iter().enumerate() {
        let command = command_in(alloc, packet).expect(rt, "memory");
        let mut out = Vec::new(alloc);
        answer(&mut session, command, &mut text, &mut out).expect(rt, "memory");
        same(number, out.as_slice() == *wanted, true).expect(rt, "not the same");
    }
    drop(session);
}

#[test]
fn answers_by_hand(rt: HostRuntime) {
    let case = case_of(rt.alloc(), &STORES, 100).expect(&rt, "a case");
    all_answers(&rt, rt.alloc(), &case);
    drop(case);
}
