// What words stand for.
use crate::{Step, calls_of, log_for, steps_of, without_finish};
use alphabet::Token;
use anyhow::bail;
use run::Call;

#[test]
fn words_are_steps(rt: HostRuntime) -> anyhow::Result<()> {
    let steps = steps_of::<u8>(rt.alloc(), "2*ab >1")?;
    assert!(rt; matches!(steps.as_slice(), [Step::Feed(_), Step::Pour(1)]));
    let steps = steps_of::<Token>(rt.alloc(), "15:-2048,0:7")?;
    assert!(rt; matches!(steps.as_slice(), [Step::Feed(_)]));
    assert!(rt; steps_of::<Token>(rt.alloc(), "16:0").is_err());
    // A piece takes no more room than it needs.
    let steps = steps_of::<u8>(rt.alloc(), "70*ab")?;
    let [Step::Feed(piece)] = steps.as_slice() else {
        bail!("a word is a piece");
    };
    assert_eq!(rt; piece.capacity(), 140);
    Ok(())
}

#[test]
fn the_finish_stands_alone(rt: HostRuntime) {
    assert!(rt; without_finish(" a b . ").1);
    assert!(rt; !without_finish(" a b.").1);
    assert!(rt; without_finish(" .").1);
}

#[test]
fn steps_are_called(rt: HostRuntime) -> anyhow::Result<()> {
    let heap = rt.alloc();
    let steps = steps_of::<u8>(heap, "ab >1")?;
    let calls = calls_of(heap, &steps)?;
    assert!(rt; matches!(calls.as_slice(), [Call::Feed(_), Call::Pour(1)]));
    assert_eq!(rt; log_for(heap, 3)?.len(), 3);
    Ok(())
}
