// The job of a star, as it is and with faults in it.
use crate::job::Job;
use decimetre::corner::Pair;
use plane::refusal::Refusal;

const STAR: [u8; 31] = [
    0x11, 0xff, 0xfa, 0xff, 0xfd, 0x11, 0x00, 0x06, 0xff, 0xfd, 0x11, 0x00, 0x00, 0x00, 0x09, 0x12,
    0x00, 0x06, 0x00, 0x05, 0x12, 0xff, 0xfa, 0x00, 0x05, 0x12, 0x00, 0x00, 0xff, 0xf9, 0x14,
];

const ONE: [Pair; 3] = [
    Pair { x: -6, y: -3 },
    Pair { x: 6, y: -3 },
    Pair { x: 0, y: 9 },
];

const TWO: [Pair; 3] = [
    Pair { x: 6, y: 5 },
    Pair { x: -6, y: 5 },
    Pair { x: 0, y: -7 },
];

/// Kinds that the format does not have.
const STRANGE: [u8; 5] = [0x00, 0x10, 0x13, 0x15, 0xff];

/// Numbers about the farthest that is admitted, by their bytes, and whether they are farther.
const FAR: [(u8, u8, bool); 4] = [
    (0x40, 0x00, false),
    (0x40, 0x01, true),
    (0xc0, 0x00, false),
    (0xbf, 0xff, true),
];

/// Whether reading the bytes gives this refusal, or none.
fn tells(bytes: &[u8], refusal: Option<Refusal>) -> bool {
    Job::read(bytes).err() == refusal
}

/// The star, with these bytes from an offset on.
fn star_with(at: usize, bytes: &[u8]) -> [u8; 31] {
    let mut star = STAR;
    for (place, byte) in star.iter_mut().skip(at).zip(bytes) {
        *place = *byte;
    }
    star
}

fn star_reads() -> bool {
    Job::read(&STAR).is_ok_and(|job| {
        job.one.as_slice() == ONE.as_slice() && job.two.as_slice() == TWO.as_slice()
    })
}

fn truncations_tell() -> bool {
    (0..31).all(|n| tells(&STAR[0..n], Some(Refusal::CutShort(n / 5 * 5))))
}

fn strange_kinds_tell() -> bool {
    (0..7).all(|k| {
        STRANGE.iter().all(|kind| tells(
            &star_with(5 * k, &[*kind]),
            Some(Refusal::UnknownKind(5 * k)),
        ))
    })
}

fn far_corners_tell() -> bool {
    (0..6).all(|k| {
        FAR.iter().all(|(high, low, farther)| {
            [1, 3].iter().all(|axis| tells(
                &star_with(5 * k + axis, &[*high, *low]),
                farther.then_some(Refusal::NotAdmitted(5 * k)),
            ))
        })
    })
}

/// 1,024 corners at 4,369 on both axes, and then the end or one more.
fn crowds_tell() -> bool {
    let mut bytes = [0x11; 5121];
    let more = tells(&bytes, Some(Refusal::TooManyCorners(5120)));
    bytes[5120] = 0x14;
    more && tells(&bytes, None)
}

#[test]
fn the_star_and_its_faults(rt: HostRuntime) {
    assert!(rt; star_reads(), "the star");
    assert!(rt; truncations_tell(), "a truncation");
    assert!(rt; strange_kinds_tell(), "a strange kind");
    assert!(rt; far_corners_tell(), "a far corner");
    assert!(rt; crowds_tell(), "a crowd");
}
