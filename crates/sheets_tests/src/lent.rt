// What a report leaves of the bytes that are lent to it.
use parish::Refusal;
use report::{Report, Summary};

const WORKED: Summary = Summary {
    households: 4,
    links: 4,
    weight: 10,
    cap: 5,
};

#[test]
fn the_rest_stays(rt: HostRuntime) {
    let mut out = [b'x'; 40];
    assert_eq!(rt; WORKED.report(&mut out), Ok(37));
    assert!(rt; &out[..] == b"households,links,weight,cap\n4,4,10,5\nxxx".as_slice());
}

#[test]
fn just_room_enough(rt: HostRuntime) {
    let mut out = [0; 37];
    assert_eq!(rt; WORKED.report(&mut out), Ok(37));
    assert!(rt; &out[..] == b"households,links,weight,cap\n4,4,10,5\n".as_slice());
}

#[test]
fn one_byte_too_few(rt: HostRuntime) {
    let mut out = [b'x'; 36];
    assert_eq!(rt; WORKED.report(&mut out), Err(Refusal::WrongList));
    assert!(rt; out == [b'x'; 36]);
}
