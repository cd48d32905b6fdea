//! Worked listings, and one line of each operation.

use crate::assertions::{Test, assert_at};
use cbpf_code::{Program, WriteFault, check, read_words, write_line, write_lines};
use std::process::Abort;

/// Programs as word text, and their listings.
static LISTINGS: [(&[u8], &[u8]); 9] = [
    (
        b"6,40 0 0 12,21 0 3 2048,48 0 0 23,21 0 1 1,6 0 0 65535,6 0 0 0",
        b"l0:\tldh [12]\nl1:\tjeq #0x800, l2, l5\nl2:\tldb [23]\nl3:\tjeq #0x1, l4, l5\nl4:\tret #0xffff\nl5:\tret #0\n",
    ),
    (
        b"4,0 0 0 5,53 0 1 10,6 0 0 0,6 0 0 1,",
        b"l0:\tld #0x5\nl1:\tjge #0xa, l2, l3\nl2:\tret #0\nl3:\tret #0x1\n",
    ),
    (
        b"3,32 0 0 4294963256,148 0 0 4,22 0 0 0,",
        b"l0:\tld rand\nl1:\tmod #0x4\nl2:\tret a\n",
    ),
    (
        b"3,48 0 0 4294963204,129 0 0 0,22 0 0 0,",
        b"l0:\tldb type\nl1:\tldx len\nl2:\tret a\n",
    ),
    (b"1,6 9 9 1", b"l0:\tret #0x1\n"),
    (
        b"8,128 1 2 3,12 7 8 9,29 0 0 77,5 5 6 0,7 1 1 1,135 1 1 1,132 1 1 1,22 3 4 5",
        b"l0:\tld len\nl1:\tadd x\nl2:\tjeq x, l3, l3\nl3:\tjmp l4\nl4:\ttax\nl5:\ttxa\nl6:\tneg\nl7:\tret a\n",
    ),
    (
        b"49,\
          2 0 0 0,3 0 0 15,0 0 0 4294967295,32 0 0 4294963199,40 0 0 12,48 0 0 0,\
          64 0 0 0,72 0 0 4294967295,80 0 0 10,96 0 0 0,128 0 0 0,\
          1 0 0 0,97 0 0 15,129 0 0 0,177 0 0 14,\
          4 0 0 1,12 0 0 0,20 0 0 16,28 0 0 0,36 0 0 11259375,44 0 0 0,52 0 0 2,60 0 0 0,\
          68 0 0 15,76 0 0 0,84 0 0 255,92 0 0 0,100 0 0 31,108 0 0 0,116 0 0 0,124 0 0 0,\
          148 0 0 10,156 0 0 0,164 0 0 2147483648,172 0 0 0,132 0 0 0,7 0 0 0,135 0 0 0,\
          5 0 0 1,21 0 1 0,29 1 0 0,37 1 0 9,45 0 0 0,53 0 1 99,61 1 0 0,69 0 1 2048,77 1 0 0,\
          22 0 0 0,6 0 0 262144",
        b"l0:\tst M[0]\nl1:\tstx M[15]\nl2:\tld #0xffffffff\nl3:\tld [4294963199]\n\
          l4:\tldh [12]\nl5:\tldb [0]\nl6:\tld [x + 0]\nl7:\tldh [x + 4294967295]\n\
          l8:\tldb [x + 10]\nl9:\tld M[0]\nl10:\tld len\nl11:\tldx #0\nl12:\tldx M[15]\n\
          l13:\tldx len\nl14:\tldxb 4*([14]&0xf)\nl15:\tadd #0x1\nl16:\tadd x\n\
          l17:\tsub #0x10\nl18:\tsub x\nl19:\tmul #0xabcdef\nl20:\tmul x\nl21:\tdiv #0x2\n\
          l22:\tdiv x\nl23:\tor #0xf\nl24:\tor x\nl25:\tand #0xff\nl26:\tand x\n\
          l27:\tlsh #0x1f\nl28:\tlsh x\nl29:\trsh #0\nl30:\trsh x\nl31:\tmod #0xa\n\
          l32:\tmod x\nl33:\txor #0x80000000\nl34:\txor x\nl35:\tneg\nl36:\ttax\nl37:\ttxa\n\
          l38:\tjmp l40\nl39:\tjeq #0, l40, l41\nl40:\tjeq x, l42, l41\n\
          l41:\tjgt #0x9, l43, l42\nl42:\tjgt x, l43, l43\nl43:\tjge #0x63, l44, l45\n\
          l44:\tjge x, l46, l45\nl45:\tjset #0x800, l46, l47\nl46:\tjset x, l48, l47\n\
          l47:\tret a\nl48:\tret #0x40000\n",
    ),
    (
        b"16,\
          32 0 0 4294963200,40 0 0 4294963204,48 0 0 4294963208,32 0 0 4294963212,\
          32 0 0 4294963216,32 0 0 4294963220,32 0 0 4294963224,32 0 0 4294963228,\
          32 0 0 4294963232,32 0 0 4294963236,32 0 0 4294963244,32 0 0 4294963248,\
          32 0 0 4294963252,32 0 0 4294963256,32 0 0 4294963260,22 0 0 0",
        b"l0:\tld proto\nl1:\tldh type\nl2:\tldb ifidx\nl3:\tld nla\nl4:\tld nlan\n\
          l5:\tld mark\nl6:\tld queue\nl7:\tld hatype\nl8:\tld rxhash\nl9:\tld cpu\n\
          l10:\tld vlan_tci\nl11:\tld vlan_avail\nl12:\tld poff\nl13:\tld rand\n\
          l14:\tld vlan_tpid\nl15:\tret a\n",
    ),
    (b"2,5 0 0 0,6 0 0 255", b"l0:\tjmp l1\nl1:\tret #0xff\n"),
];

fn program_of(rt: &impl Test, words: &[u8]) -> Program {
    let list = read_words(rt.alloc(), words).expect(rt, "a list");
    check(list).ok().expect(rt, "a program")
}

fn is_listed(rt: &impl Test, program: &Program, wanted: &[u8]) -> bool {
    let mut text = Vec::new(rt.alloc());
    write_lines(&mut text, program).is_ok() && text.as_slice() == wanted
}

fn assert_two_lines(rt: &impl Abort, program: &Program) {
    assert!(rt; program.len() == 2);
    let mut room = [0u8; 17];
    let mut writer: &mut [u8] = &mut room;
    assert!(rt; write_line(&mut writer, program, 1).is_ok());
    assert!(rt; write_line(&mut writer, program, 0) == Err(WriteFault));
    assert!(rt; room == *b"l1:\tret #0xffl0:\t");
}

// The last one's lines are written one by one too, and then without room for the end.
#[test]
fn worked_listings(rt: HostRuntime) {
    for (row, (words, wanted)) in LISTINGS.iter().enumerate() {
        let program = program_of(&rt, words);
        assert_at(&rt, row, is_listed(&rt, &program, wanted));
        if program.len() == 2 {
            assert_two_lines(&rt, &program);
        }
    }
}
