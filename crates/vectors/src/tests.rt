use capture::{inspect_line, show};
use field::{Address, LinkCode};
use frame::{Message, Stc, StcFields, read};
use std::test::Fail;

// The first STC of root 10, where trees are held for 120 seconds.
const FIRST_STC: [u8; 17] = [
    0x02, 0x11, 0x00, 0x0A, 0x00, 0x01, 0x00, 0x0A, 0x00, 0x00, 0x00, 0x00, 0x78, 0x20, 0x00, 0x00,
    0x00,
];

#[test]
fn writing_fills_the_front_or_alters_nothing(rt: HostRuntime) -> Result<(), Fail> {
    let Ok(message) = read(&FIRST_STC) else {
        return Err(Fail::new("no message"));
    };
    let mut out = [0xEE; 20];
    assert!(rt; message.write(&mut out[0..16]).is_err());
    assert!(rt; out == [0xEE; 20]);
    assert!(rt; message.write(&mut out[0..17]).is_ok());
    assert!(rt; &out[0..17] == &FIRST_STC[0..17]);
    assert!(rt; &out[17..20] == &[0xEE; 3][0..3]);
    Ok(())
}

#[test]
fn fields_that_break_a_rule_make_no_message(rt: HostRuntime) -> Result<(), Fail> {
    let Ok(Message::Stc(stc)) = read(&FIRST_STC) else {
        return Err(Fail::new("no STC"));
    };
    let fields = stc.fields();
    assert!(rt; Stc::new(fields).is_ok());
    assert!(rt; Stc::new(StcFields { ttl: 33, ..fields }).is_err());
    Ok(())
}

#[test]
fn a_hello_lists_its_neighbours(rt: HostRuntime) -> Result<(), Fail> {
    let octets = [1, 17, 0, 20, 7, 60, 2, 1, 6, 0, 10, 0, 30, 2, 4, 1, 0];
    let Ok(Message::Hello(hello)) = read(&octets) else {
        return Err(Fail::new("no Hello"));
    };
    let groups = hello.fields().groups;
    assert!(rt; groups.list(Address(30)));
    assert!(rt; groups.list(Address(256)));
    assert!(rt; !groups.list(Address(20)));
    assert!(rt; groups.addresses(LinkCode::Sym).count() == 2);
    assert!(rt; groups.addresses(LinkCode::Asym).count() == 1);
    Ok(())
}

#[test]
fn a_line_is_shown_as_its_message_or_its_refusal(rt: HostRuntime) -> Result<(), Fail> {
    let stc = b"02 11 00 0A 00 01 00 0A 00 00 00 00 78 20 00 00 00";
    let message = show(rt.alloc(), inspect_line(rt.alloc(), stc))?;
    assert!(rt;
        message.as_str()
            == "STC sender=10 wave=1 root=10 cost=0 parent=none vtime=120 ttl=32 flags=none tree=0 rewritten=same"
    );
    let refusal = show(rt.alloc(), inspect_line(rt.alloc(), &stc[0..14]))?;
    assert!(rt; refusal.as_str() == "? 3");
    Ok(())
}
