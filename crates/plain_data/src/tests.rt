use crate::{Boxed, Many, NoMemory, Word};

#[test]
fn adds_moves_and_removes(rt: HostRuntime) -> Result<(), NoMemory> {
    let alloc = rt.alloc();
    let mut many = Many::from_slice(alloc, &[1, 2])?;
    many.push(3)?;
    many.extend(&[4, 5])?;
    if many.len() == 5 {
        many.set(0, 7);
        assert_eq!(rt; many.remove(1), 2);
    }
    assert_eq!(rt; many.pop(), Some(5));
    assert_eq!(rt; many.get(2).copied(), Some(4));
    many.truncate(2);
    assert_eq!(rt; many.as_slice(), [7, 3].as_slice());
    assert!(rt; many.clone()? == many);
    let again: Many<i32> = Many::from_vec(many.into_vec());
    assert_eq!(rt; again.len(), 2);
    let mut none: Many<u8> = Many::with_room(alloc, 8)?;
    assert!(rt; none.is_empty());
    assert_eq!(rt; none.pop(), None);
    Ok(())
}

#[test]
fn keeps_a_value_of_its_own(rt: HostRuntime) -> Result<(), NoMemory> {
    let alloc = rt.alloc();
    let boxed = Boxed::new(alloc, 5)?;
    assert!(rt; boxed == Boxed::new(alloc, 5)?);
    assert_eq!(rt; *boxed.get(), 5);
    assert_eq!(rt; boxed.into_inner(), 5);
    Ok(())
}

#[test]
fn spells_a_word(rt: HostRuntime) -> Result<(), NoMemory> {
    let mut word = Word::new(rt.alloc());
    assert!(rt; word.is_empty());
    word.push('n')?;
    word.push('é')?;
    assert_eq!(rt; word.as_str(), "né");
    assert_eq!(rt; word.as_bytes(), "né".as_bytes());
    assert_eq!(rt; word.len(), 3);
    assert!(rt; word.clone()? == Word::of(rt.alloc(), "né")?);
    Ok(())
}
