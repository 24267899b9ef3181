//! Tests of sets of bytes and of code points.

use regex_pattern_front::bytesearch::{
    AsciiBitmap, ByteArraySet, ByteBitmap, ByteSearcher, ByteSet,
};
use regex_pattern_front::canonical::{are_alike, canonicalize};
use regex_pattern_front::codepointset::{CodePointSet, Interval};
use regex_pattern_front::folding_and_first_bytes::{
    add_utf8_first_bytes_to_bitmap, utf8_first_byte,
};
use regex_pattern_front::types::BracketContents;
use std::process::Abort;
use std::test::Fail;

#[test]
fn sets_are_searched(rt: HostRuntime) {
    let mut ascii = AsciiBitmap::default();
    ascii.set(b'a');
    ascii.set(128);
    ascii.set(255);
    assert!(rt; ascii.contains(b'a') && !ascii.contains(0) && !ascii.contains(127));
    assert!(rt; !ascii.contains(128) && !ascii.contains(255));
    ascii.set(127);
    assert!(rt; ascii.contains(b'a') && ascii.contains(127) && !ascii.contains(b'b'));
    let mut bytes = ByteBitmap::default();
    add_utf8_first_bytes_to_bitmap(
        Interval {
            first: 0x7F,
            last: 0x80,
        },
        &mut bytes,
    );
    assert!(rt; bytes.contains(0x7F) && bytes.contains(0xC2) && !bytes.contains(0xC3));
    assert!(rt;
        ascii.byte_set_has_char(0x61)
            && !ascii.byte_set_has_char(0xE1)
            && !ascii.byte_set_has_char(0x161)
    );
    assert!(rt;
        bytes.byte_set_has_char(0x7F)
            && bytes.byte_set_has_char(0xC2)
            && !bytes.byte_set_has_char(0x1C2)
    );
    assert_eq!(rt; bytes.find_in(&[0x41, 0xC2, 0xA0]), Some(1));
}

#[test]
fn byte_arrays_are_searched(rt: HostRuntime) {
    let first_bytes = [0x20AC, 0xD800, 0x10_FFFF, 0x11_0000, u32::MAX].map(utf8_first_byte);
    assert_eq!(rt; first_bytes, [0xE2, 0xED, 0xF4, 0xFF, 0xFF]);
    let found = [
        [b'c'].find_in(b"abc"),
        [b'x', b'b'].find_in(b"abc"),
        [b'x', b'y', b'z'].find_in(b"abc"),
    ];
    assert_eq!(rt; found, [Some(2), Some(1), None]);
    let few = ByteArraySet([b'a', b'a', b'b', b'c']);
    assert!(rt; few.contains(b'c') && few.byte_set_has_char(0x63) && !few.byte_set_has_char(0x163));
    assert!(rt;
        [b'a'].byte_set_has_char(0x61)
            && [b'a', b'b'].byte_set_has_char(0x62)
            && [1, 2, 3].byte_set_has_char(3)
    );
}

// Without `u`: the uppercase of `ÿ`, `ς` and `µ` is one code unit; that of `ß` is two, those of `ı`
// and `ſ` are in ASCII, and Deseret letters are two code units. With it: the Kelvin sign and `ẞ`
// fold, and `İ` does not.
#[test]
fn code_points_are_canonicalized(rt: HostRuntime) {
    let asked = [0x61, 0x41, 0xFF, 0x3C2, 0xB5, 0xDF, 0x131, 0x17F, 0x1_0428];
    let wanted = [
        0x41, 0x41, 0x178, 0x3A3, 0x39C, 0xDF, 0x131, 0x17F, 0x1_0428,
    ];
    assert_eq!(rt; asked.map(|c| canonicalize(c, false)), wanted);
    let asked = [
        0x61, 0x41, 0x3C2, 0x130, 0x17F, 0x1E9E, 0x212A, 0x1_0400, 0x11_0000,
    ];
    let wanted = [
        0x61, 0x61, 0x3C3, 0x130, 0x73, 0xDF, 0x6B, 0x1_0428, 0x11_0000,
    ];
    assert_eq!(rt; asked.map(|c| canonicalize(c, true)), wanted);
    assert_eq!(rt;
        [0xD801, u32::MAX].map(|c| canonicalize(c, false)),
        [0xD801, u32::MAX]
    );
    assert!(rt; are_alike(0x6B, 0x212A, true) && !are_alike(0x6B, 0x212A, false));
}

#[test]
fn sets_of_code_points(rt: HostRuntime) -> Result<(), Fail> {
    let given = [
        Interval { first: 5, last: 9 },
        Interval { first: 1, last: 4 },
        Interval { first: 8, last: 7 },
    ];
    let set = CodePointSet::from_intervals(rt.alloc(), &given)?;
    let class = BracketContents {
        invert: true,
        cps: set,
    };
    assert!(rt; class.contains(9) && !class.contains(10) && class.intervals().len() == 1);
    let others = class.inverted()?;
    assert!(rt; others.contains(0) && others.contains(10) && !others.contains(9));
    let copy = class.clone()?;
    assert!(rt; copy.invert && copy.cps.contains(9) && !copy.cps.contains(10));
    assert!(rt; copy.cps.intervals().len() == 1);
    let rest = copy.cps.inverted()?;
    assert!(rt; rest.contains(0) && rest.contains(0x10_FFFF) && !rest.contains(4));
    assert!(rt; !rest.contains(0x11_0000));
    Ok(())
}
