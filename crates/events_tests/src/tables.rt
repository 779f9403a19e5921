// Which masks make a reach table, and which refusal the others meet.
use records::mask::Mask;
use records::reach::Reach;
use std::test::Fail;

// The number of the refusal; none where the masks make a table.
fn refusal(masks: &[u8]) -> Option<u8> {
    Reach::new(masks).err().map(|fault| fault.number())
}

#[test]
fn two_to_eight_masks(rt: HostRuntime) {
    assert_eq!(rt; refusal(&[]), Some(1));
    assert_eq!(rt; refusal(&[0]), Some(1));
    assert_eq!(rt; refusal(&[0, 0]), None);
    assert_eq!(rt; refusal(&[0; 8]), None);
    assert_eq!(rt; refusal(&[0; 9]), Some(1));
    // the count is looked at first
    assert_eq!(rt; refusal(&[1]), Some(1));
    assert_eq!(rt; refusal(&[255; 9]), Some(1));
}

#[test]
fn no_own_port_and_none_outside(rt: HostRuntime) {
    assert_eq!(rt; refusal(&[2, 1]), None);
    assert_eq!(rt; refusal(&[1, 0]), Some(2));
    assert_eq!(rt; refusal(&[0, 2]), Some(2));
    assert_eq!(rt; refusal(&[2, 3]), Some(2));
    // the first port outside a table of two, and the last of all
    assert_eq!(rt; refusal(&[4, 0]), Some(2));
    assert_eq!(rt; refusal(&[0, 128]), Some(2));
    assert_eq!(rt; refusal(&[4, 0, 0]), None);
    assert_eq!(rt; refusal(&[6, 5, 3]), None);
    // eight ports, each sending to all others
    assert_eq!(rt; refusal(&[254, 253, 251, 247, 239, 223, 191, 127]), None);
    assert_eq!(rt; refusal(&[254, 253, 251, 247, 239, 223, 191, 255]), Some(2));
}

#[test]
fn holds_its_masks(rt: HostRuntime) -> Result<(), Fail> {
    let reach = Reach::new(&[6, 0, 1])?;
    assert_eq!(rt; reach.ports(), 3);
    assert_eq!(rt; reach.mask(0), Mask { bits: 6 });
    assert_eq!(rt; reach.mask(1), Mask { bits: 0 });
    assert_eq!(rt; reach.mask(2), Mask { bits: 1 });
    assert_eq!(rt; reach.mask(3), Mask { bits: 0 });
    assert_eq!(rt; reach.mask(255), Mask { bits: 0 });
    assert!(rt; reach.sends(0, 1));
    assert!(rt; reach.sends(0, 2));
    assert!(rt; !reach.sends(0, 3));
    assert!(rt; !reach.sends(1, 0));
    assert!(rt; reach.sends(2, 0));
    assert!(rt; !reach.sends(9, 0));
    assert!(rt; !reach.sends(0, 9));
    Ok(())
}
