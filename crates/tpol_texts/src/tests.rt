use crate::Texts;
use tpol_base::NoMemory;

fn takes_more(texts: &mut Texts) -> bool {
    texts.push(b"one").is_ok() && texts.push_pieces(&[b"t", b"wo"]).is_ok() && texts.len() == 3
}

#[test]
fn texts_are_added(rt: HostRuntime) {
    let takes = match Texts::of_bytes(rt.alloc(), Vec::new(rt.alloc())) {
        Ok(texts) => {
            let mut texts = texts;
            let takes = takes_more(&mut texts);
            drop(texts);
            takes
        }
        Err(NoMemory) => false,
    };
    assert!(rt; takes);
}

fn keeps(texts: &mut Texts, text: &[u8], wanted: usize) -> bool {
    match texts.keep(text) {
        Ok(index) => index == wanted,
        Err(NoMemory) => false,
    }
}

#[test]
fn a_text_like_the_last_one_is_kept_once(rt: HostRuntime) {
    let mut texts = Texts::new(rt.alloc());
    let kept = keeps(&mut texts, b"one", 0)
        && keeps(&mut texts, b"one", 0)
        && keeps(&mut texts, b"two", 1);
    drop(texts);
    assert!(rt; kept);
}
