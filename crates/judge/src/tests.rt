// Tests of the functions over `AccessRules`, which no program calls.
use crate::access_rule::{AccessRules, Rule};
use crate::effect::{Effect, effect_of};
use crate::lock_set::LockSet;
use crate::walk::walk_code;
use program::instruction::Instruction;
use program::layout::read;
use program::limits::{REPORT_LIMIT, VARIABLE_LIMIT};
use program::refusal::Refusal;
use program::sections::ProgramFile;

// A guarded variable, a fixed and an open one; TAKE, a READ of the first, GIVE.
static FILE: [u8; 37] = [
    1, 1, 1, 0, 18, 0, 0, 0, 0, 0, 0, 2, 0, 0, 0, 0, 0, 3, 0, 0, 0, 0, 0, 0, 12, 0x20, 0, 0, 0,
    0x10, 0, 0, 0, 0x21, 0, 0, 0,
];

#[test]
#[tactic(auto, unfolding(crate::specs::LockSet::empty, crate::specs::LockSet::holds, program::specs::View::access_of))]
fn rules_of_a_code(rt: HostRuntime) {
    let mut writers = [0u8; VARIABLE_LIMIT];
    let Ok(layout) = read(&FILE, &mut writers) else {
        panic!(rt; "the file is sound");
    };
    let file = ProgramFile::locate(&FILE, layout);
    let rules = AccessRules::of(&file, 0, &writers);
    assert!(rt; matches!(rules.reads[0], Rule::Locked(0)));
    assert!(rt; matches!(rules.writes[0], Rule::Locked(0)));
    assert!(rt; matches!(rules.reads[1], Rule::Free));
    assert!(rt; matches!(rules.writes[1], Rule::Never));
    assert!(rt; matches!(rules.reads[2], Rule::Free));
    assert!(rt; matches!(rules.writes[2], Rule::Single));
    for v in 3..VARIABLE_LIMIT {
        assert!(rt; matches!(rules.reads[v], Rule::Free), "{v}");
        assert!(rt; matches!(rules.writes[v], Rule::Free), "{v}");
    }
    let first = Instruction::Read(0, 0);
    let without = LockSet::empty();
    assert!(rt;
        matches!(
            effect_of(first, 29, without, &rules),
            Err(Refusal::Access(29))
        )
    );
    let held = without.with(0);
    assert!(rt; matches!(effect_of(first, 29, held, &rules), Ok(Effect::Nothing)));
    // What walk_code asks.
    assert!(rt; layout.threads == 1);
    assert!(rt; file.count(0) == 3);
    let mut report = [0u8; REPORT_LIMIT];
    assert!(rt; walk_code(&rules, 0, &mut report).is_ok());
    // TAKE, the READ, GIVE and the whole, as report bytes: B 1, L 2, R 3, A 4. Behind them nothing is written.
    assert_eq!(rt; report[0], 3);
    assert_eq!(rt; report[1], 1);
    assert_eq!(rt; report[2], 2);
    assert_eq!(rt; report[3], 4);
    assert_eq!(rt; report[4], 0);
}
