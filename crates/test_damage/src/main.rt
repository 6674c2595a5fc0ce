// Family 3 of the test: damaged arrays. A short run is saved; then, again and again, the saved array is
// spoiled in one or two places, lent with its just length, one word less or some more, and random calls
// are made on it.
#![tactic(auto)]

use std::io;
use test_array::array::{fields_of, power, words_before};
use test_array::route::unfolded;
use test_array::words::{WORDS, word_at};
use test_compare::arrays::Arrays;
use test_compare::compare::make;
use test_compare::family::run_family;
use test_model::{ALL_STORES, Call, Change};
use test_random::damage::spoil;
use test_random::generator::{Rolls, next, own_part, scatter};
use test_random::runs::{call_for, draw_keys, list_block_for};
use test_random::settings::Setting;
use test_random::table::Table;

// The saved runs, the puts of each, the damages of each, the calls on each damaged array.
const BASES: u64 = 120;

const BASE_STEPS: usize = 70;

const DAMAGES: usize = 60;

const CALLS_PER_DAMAGE: usize = 10;

// A run of family 2: its format, its seed, and its steps before the last put.
const LEFT_FORMAT: Change = Change::Format {
    max_depth: 6,
    segments: 2,
};

const LEFT_SEED: u64 = 415;

const LEFT_STEPS: usize = 158;

// Words behind those that the index takes.
const WORDS_BEHIND: usize = 8;

// The folded key of a key of a saved run, drawn in another way than a key of `test_random`: one of 48, by the run's number running, of three buckets, of
// one bucket with two routes, or half of one route and half spread.
fn folded_of(run: u64, roll: u64) -> u64 {
    let number = roll % 48;
    let own = own_part(number);
    match run % 4 {
        0 => number + 1,
        1 => own + number % 3 + number * 16,
        2 => own + 13 + number % 2 * 16 + run / 4 % 256 * 64,
        _ => if number % 2 == 0 {
            own + 14
        } else {
            own + number / 2 % 2 + 16 + number * 32
        },
    }
}

// A key of a saved run.
fn key_of(run: u64, roll: u64) -> u64 {
    unfolded(folded_of(run, roll))
}

// What the array of the saved runs holds before the first: random words, and a run of family 2 with these
// keys in them.
fn leave_run(words: &mut [u64], keys: &Table) {
    scatter(words, LEFT_SEED);
    make(words, LEFT_FORMAT.whole());
    for roll in Rolls::seeded(LEFT_SEED).take(LEFT_STEPS) {
        let call = call_for(words, keys, roll);
        make(words, call);
        make(words, Change::Mend.whole());
    }
}

// One call of a run that is to be saved.
fn grow(key: u64, roll: u64) -> Call {
    let put = Change::Put { key, value: roll };
    match roll % 8 {
        0 => put.allowed((roll / 1024 % 128) as u32),
        1 => Change::Remove { key }.whole(),
        2 => Change::Mend.whole(),
        _ => put.whole(),
    }
}

// A run to be saved, from a format on. What the array holds before is left from another run.
fn prepare(words: &mut [u64], setting: Setting) {
    make(words, setting.format().whole());
    for roll in Rolls::seeded(setting.seed).take(BASE_STEPS) {
        make(words, grow(key_of(setting.seed, roll / 16), roll));
    }
}

// The allowance of a call on a damaged array: few stores, some, or all.
fn allowance_for(roll: u64) -> u32 {
    match roll % 4 {
        0 => (roll / 4 % 4) as u32,
        1 => (roll / 4 % 200) as u32,
        _ => ALL_STORES,
    }
}

// A key of the saved run, or now and then no key.
fn key_for(run: u64, roll: u64) -> u64 {
    if roll % 12 == 0 {
        return 0;
    }
    key_of(run, roll / 16)
}

// A format on a damaged array: often of a small shape, at times of one that is refused.
fn any_format(roll: u64) -> Call {
    let (max_depth, segments) = if roll % 4 == 0 {
        (roll / 4 % 15, roll / 64 % 40)
    } else {
        (2 + roll / 4 % 3, 1 + roll / 64 % 4)
    };
    let format = Change::Format {
        max_depth,
        segments,
    };
    format.allowed((roll / 4096 % 80) as u32)
}

// A random call on a damaged array.
fn any_call(words: &[u64], run: u64, roll: u64) -> Call {
    let key = key_for(run, roll / 16);
    let allowance = allowance_for(roll / 65536);
    match roll % 16 {
        0..=3 => Change::Put { key, value: roll }.allowed(allowance),
        4..=5 => Change::Remove { key }.allowed(allowance),
        6..=7 => Change::Merge { key }.allowed(allowance),
        8 => Call::Get { key },
        9..=10 => Change::Mend.allowed(allowance),
        11..=12 => Call::List {
            room: (roll / 65536 % 256) as usize,
        },
        13..=14 => list_block_for(words, key, roll / 65536),
        _ => any_format(roll / 16),
    }
}

// The calls on a damaged array.
fn call_on(arrays: &mut Arrays, run: u64, seed: u64) {
    for roll in Rolls::after(seed).take(CALLS_PER_DAMAGE) {
        let call = any_call(&arrays.index, run, roll);
        arrays.compare(call);
    }
}

// How many words are lent: those needed, all but one of them, or some more.
fn lent_for(needed: usize, roll: u64) -> usize {
    let length = needed % WORDS;
    match roll % 8 {
        0 => length.saturating_sub(1),
        1 => length + 1,
        2 | 3 => length + WORDS_BEHIND,
        _ => length,
    }
}

// Spoils the index's array in two places or one.
fn spoil_twice(words: &mut [u64], run: u64, roll: u64) {
    let shape = fields_of(word_at(words, 0));
    let second = next(roll);
    spoil(words, key_of(run, roll / 67108864), shape, roll / 8);
    spoil(words, key_of(run, second / 67108864), shape, second);
}

// One damaged array: the saved one, spoiled.
fn damage_once(arrays: &mut Arrays, setting: Setting, roll: u64) {
    arrays.restore();
    spoil_twice(&mut arrays.index, setting.seed, roll);
    arrays.copy_to_model();
    let needed = words_before(setting.max_depth, setting.segments);
    arrays.begin_case(lent_for(needed, roll));
    call_on(arrays, setting.seed, roll);
}

// One saved run and its damages.
fn damage_base(arrays: &mut Arrays, setting: Setting) {
    prepare(&mut arrays.saved, setting);
    for roll in Rolls::seeded(setting.seed.wrapping_add(1)).take(DAMAGES) {
        damage_once(arrays, setting, roll);
    }
}

// A saved run, by its number, which is its seed too: all segments that its depth allows, or three quarters.
fn setting_for(number: u64) -> Setting {
    let max_depth = 2 + (number % 4) as u32;
    let most = power(max_depth);
    let segments = if number / 4 % 2 == 0 {
        most
    } else {
        most - most / 4
    };
    Setting {
        max_depth,
        segments,
        seed: number,
    }
}

// All saved runs and their damages.
fn test_damage(arrays: &mut Arrays) {
    leave_run(&mut arrays.saved, &draw_keys(LEFT_SEED));
    for number in 0..BASES {
        damage_base(arrays, setting_for(number));
    }
}

fn main(rt: HostRuntime) -> io::Result<()> {
    run_family(&rt, "3 damage", test_damage)
}
