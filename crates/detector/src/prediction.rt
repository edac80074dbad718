// What is predicted, and when an amount stands out.
ghost use Rattle.std.specs.Prelude.{◌≡◌, ◌≤◌};
ghost use Rattle.detector.specs.Detector.{moved, spike, most_predicted};

// The prediction after an amount: a quarter of the way to it, rounded toward zero also on the way down.
pub(super) fn moved_to(predicted: u32, amount: u16) -> u32
    requires { predicted ≤ most_predicted }
    ensures { result ≡ moved predicted amount }
{
    let before = predicted as i32;
    let difference = 16 * amount as i32 - before;
    (before + difference / 4) as u32
}

// Whether an amount is at least ten and at least twice what was predicted.
pub(super) fn is_spike(predicted: u32, amount: u16) -> bool
    ensures { result ≡ spike predicted amount }
{
    amount >= 10 && 16 * u64::from(amount) >= 2 * u64::from(predicted)
}
