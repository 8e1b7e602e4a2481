// What is sent to a chip, played on it: the update's page groups in three orders. The output is compared with `stdout`.
#![tactic(auto)]

mod groups;
mod play;
mod refusals;
mod say;

fn main(rt: HostRuntime) {
    groups::three_orders(&rt);
    groups::too_few(&rt);
    groups::equal_pictures(&rt);
    refusals::pages(&rt);
    refusals::room(&rt);
    refusals::sizes(&rt);
    refusals::second_chip(&rt);
}
