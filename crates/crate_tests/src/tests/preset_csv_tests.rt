//! Preset files without user events, read and written by calls that no tool makes.

use postfix_rules::FormulaCause;
use preset_csv::{PresetCause, PresetFault, read_presets, write_presets};
use std::test::Fail;

const PRESETS: &str = "# presets of the lab unit\n\
CPU,lab1\n\
CPU,lab2\n\
PRESET,PAPI_TOT_INS,NOT_DERIVED,lab::INST_RETIRED\n\
PRESET, PAPI_TOT_CYC, NOT_DERIVED, lab::CYCLES, NOTE, 'core, not reference'\n\
PRESET,PAPI_RES_STL,DERIVED_SUB,lab::CYCLES,lab::INST_RETIRED\n\
PRESET,PAPI_LST_INS,DERIVED_ADD,lab::CACHE,lab::INST_RETIRED\n\
PRESET,PAPI_BR_PRC,DERIVED_POSTFIX,N00|N1|-,lab::BR_INST:ALL,lab::BR_MISP\n\
PRESET,PAPI_FP_OPS,DERIVED_PS,lab::INST_RETIRED\n\
PRESET,PAPI_FOO,NOT_DERIVED,lab::CYCLES\n\
EVENT,E,DERIVED_X,x\n\
CPU,other\n\
PRESET,PAPI_TOT_INS,NOT_DERIVED,lab::CYCLES\n\
PRESET,PAPI_TOT_INS,DERIVED_INFIX,N0+N1,x,y\n";

const LAB2_WRITTEN: &str = "CPU,lab2\n\
PRESET,PAPI_BR_PRC,DERIVED_POSTFIX,N0|N1|-|,lab::BR_INST:ALL,lab::BR_MISP\n\
PRESET,PAPI_TOT_INS,NOT_DERIVED,lab::INST_RETIRED\n\
PRESET,PAPI_RES_STL,DERIVED_SUB,lab::CYCLES,lab::INST_RETIRED\n\
PRESET,PAPI_TOT_CYC,NOT_DERIVED,lab::CYCLES\n\
PRESET,PAPI_LST_INS,DERIVED_ADD,lab::CACHE,lab::INST_RETIRED\n\
PRESET,PAPI_FP_OPS,DERIVED_CMPD\n";

// Processors, and what is written of their presets. The second is a name that can stand in no field, which no tool takes.
const WRITTEN: [(&str, &str); 2] = [("lab2", LAB2_WRITTEN), ("a,b", "CPU,a,b\n")];

#[test]
fn presets_that_are_read_and_written(rt: HostRuntime) -> Result<(), Fail> {
    for (cpu, written) in WRITTEN {
        let table = read_presets(rt.alloc(), PRESETS.as_bytes(), cpu)?;
        let bytes = write_presets(rt.alloc(), &table)?;
        assert!(rt; bytes.as_slice() == written.as_bytes(), "{cpu}");
    }
    let text = "CPU,a\n # x\n\nPRESET,PAPI_TOT_INS,DERIVED_POSTFIX,N1|,x\n";
    let fault = PresetFault::Row {
        row: 3,
        cause: PresetCause::BadFormula(FormulaCause::NativeRange),
    };
    assert!(rt; read_presets(rt.alloc(), text.as_bytes(), "a").err() == Some(fault));
    Ok(())
}
