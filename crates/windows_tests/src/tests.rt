use std::alloc::Global;
use std::test::Fail;
use terms::Refusal;
use windows::Alphabet;

// The windows of a play, as a person reads them, each behind a blank.
fn shown(heap: Global, n: u16, k: u16, moves: &[u8]) -> Result<String, Fail> {
    let alphabet = Alphabet::new(n, k)?;
    let play = alphabet.play(moves)?;
    let mut text = String::new(heap);
    for window in alphabet.cut(&play).windows() {
        text.push_str(format!(in heap; " {window}")?.as_str())?;
    }
    Ok(text)
}

#[test]
fn windows_of_short_plays(rt: HostRuntime) -> Result<(), Fail> {
    let heap = rt.alloc();
    assert_eq!(rt; shown(heap, 1, 2, &[])?.as_str(), " +-");
    assert_eq!(rt; shown(heap, 12, 5, &[])?.as_str(), " +-");
    assert_eq!(rt; shown(heap, 12, 2, &[12])?.as_str(), " +(12) (12)-");
    assert_eq!(rt; shown(heap, 2, 2, &[1, 2])?.as_str(), " +1 12 2-");
    assert_eq!(rt; shown(heap, 9, 5, &[1, 2, 3])?.as_str(), " +123-");
    assert_eq!(rt; shown(heap, 9, 5, &[1, 2, 3, 4])?.as_str(), " +1234 1234-");
    assert_eq!(rt;
        shown(heap, 9, 5, &[1, 2, 3, 4, 5])?.as_str(),
        " +1234 12345 2345-"
    );
    Ok(())
}

// A play of m moves has m + 3 - k windows.
#[test]
fn windows_of_the_longest_play(rt: HostRuntime) -> Result<(), Fail> {
    let two = Alphabet::new(1, 2)?;
    let play = two.play(&[1; 32])?;
    assert_eq!(rt; two.cut(&play).windows().len(), 33);
    let five = Alphabet::new(1, 5)?;
    assert_eq!(rt; five.cut(&play).windows().len(), 30);
    Ok(())
}

// Why there is no such play, where there is none.
fn refusal(n: u16, k: u16, moves: &[u8]) -> Option<Refusal> {
    Alphabet::new(n, k)
        .and_then(|alphabet| alphabet.play(moves))
        .err()
}

#[test]
fn refused_alphabets(rt: HostRuntime) {
    for (n, k) in [(0, 2), (13, 2), (1, 1), (1, 6), (0, 0), (65_535, 65_535)] {
        assert_eq!(rt; refusal(n, k, &[]), Some(Refusal::Shut));
    }
}

#[test]
fn allowed_alphabets(rt: HostRuntime) {
    for (n, k) in [(1, 2), (12, 2), (1, 5), (12, 5)] {
        assert_eq!(rt; refusal(n, k, &[]), None);
    }
}

#[test]
fn refused_numbers(rt: HostRuntime) {
    assert_eq!(rt; Refusal::Shut.number(), 10);
    assert_eq!(rt; Refusal::TooManyMoves.number(), 17);
    assert_eq!(rt; Refusal::WrongMove { place: 1 }.number(), 18);
}

#[test]
fn refused_plays(rt: HostRuntime) {
    assert_eq!(rt; refusal(1, 2, &[1; 33]), Some(Refusal::TooManyMoves));
    assert_eq!(rt; refusal(1, 2, &[0; 33]), Some(Refusal::TooManyMoves));
    assert_eq!(rt; refusal(12, 5, &[12; 32]), None);
    for wrong in [0, 4, 43, 45, 255] {
        assert_eq!(rt;
            refusal(3, 3, &[wrong]),
            Some(Refusal::WrongMove { place: 1 })
        );
        assert_eq!(rt;
            refusal(3, 3, &[1, 3, wrong, 0]),
            Some(Refusal::WrongMove { place: 3 })
        );
    }
}

#[test]
fn codes_and_words(rt: HostRuntime) -> Result<(), Fail> {
    let heap = rt.alloc();
    let three = Alphabet::new(3, 3)?;
    assert_eq!(rt; three.code(b"+\x01\x02"), Some(152));
    assert_eq!(rt; three.code(b""), Some(0));
    assert_eq!(rt; three.code(b"\x01\x01\x01\x01"), None);
    assert_eq!(rt; three.code(b"\x04"), None);
    assert_eq!(rt; three.code_limit(), 216);
    // 6 is 10 in base 6, and 216 has four digits.
    assert!(rt; three.word(6).is_none());
    assert!(rt; three.word(216).is_none());
    assert!(rt; three.word(u32::MAX).is_none());
    let Some(word) = three.word(152) else {
        assert!(rt; false, "152 has a word");
        return Ok(());
    };
    assert_eq!(rt; format!(in heap; "{word}")?.as_str(), "+12");
    let twelve = Alphabet::new(12, 5)?;
    assert_eq!(rt; twelve.code_limit(), 759_375);
    assert_eq!(rt; twelve.code(b"-----"), Some(759_374));
    Ok(())
}

#[test]
fn windows_of_order_two(rt: HostRuntime) -> Result<(), Fail> {
    let two = Alphabet::new(2, 2)?;
    let cases = [
        (b"+-", true),
        (b"+\x01", true),
        (b"\x01-", true),
        (b"\x01\x02", true),
        (b"-+", false),
        (b"++", false),
        (b"--", false),
        (b"\x01+", false),
        (b"-\x01", false),
        (b"\x01\x03", false),
        (b"+\x00", false),
    ];
    for (bytes, is_one) in cases {
        assert_eq!(rt; two.is_window(bytes), is_one);
    }
    Ok(())
}

#[test]
fn windows_of_order_three(rt: HostRuntime) -> Result<(), Fail> {
    let three = Alphabet::new(2, 3)?;
    let cases: [(&[u8], bool); 8] = [
        (b"+-", true),
        (b"+\x01-", true),
        (b"+\x01\x02", true),
        (b"+\x01", false),
        (b"\x01-", false),
        (b"\x01\x02\x01\x02", false),
        (b"+", false),
        (b"", false),
    ];
    for (bytes, is_one) in cases {
        assert_eq!(rt; three.is_window(bytes), is_one);
    }
    Ok(())
}
