//! The description of the target for GDB: an RV32 processor with the registers x0 to x31 and the pc.

/// The description, which `qXfer:features:read:target.xml` gives in parts.
pub static TARGET: &[u8] = b"<?xml version=\"1.0\"?>\
<!DOCTYPE target SYSTEM \"gdb-target.dtd\">\
<target version=\"1.0\"><architecture>riscv:rv32</architecture><feature name=\"org.gnu.gdb.riscv.cpu\">\
<reg name=\"x0\" bitsize=\"32\" type=\"int\"/>\
<reg name=\"x1\" bitsize=\"32\" type=\"code_ptr\"/>\
<reg name=\"x2\" bitsize=\"32\" type=\"data_ptr\"/>\
<reg name=\"x3\" bitsize=\"32\" type=\"int\"/>\
<reg name=\"x4\" bitsize=\"32\" type=\"int\"/>\
<reg name=\"x5\" bitsize=\"32\" type=\"int\"/>\
<reg name=\"x6\" bitsize=\"32\" type=\"int\"/>\
<reg name=\"x7\" bitsize=\"32\" type=\"int\"/>\
<reg name=\"x8\" bitsize=\"32\" type=\"int\"/>\
<reg name=\"x9\" bitsize=\"32\" type=\"int\"/>\
<reg name=\"x10\" bitsize=\"32\" type=\"int\"/>\
<reg name=\"x11\" bitsize=\"32\" type=\"int\"/>\
<reg name=\"x12\" bitsize=\"32\" type=\"int\"/>\
<reg name=\"x13\" bitsize=\"32\" type=\"int\"/>\
<reg name=\"x14\" bitsize=\"32\" type=\"int\"/>\
<reg name=\"x15\" bitsize=\"32\" type=\"int\"/>\
<reg name=\"x16\" bitsize=\"32\" type=\"int\"/>\
<reg name=\"x17\" bitsize=\"32\" type=\"int\"/>\
<reg name=\"x18\" bitsize=\"32\" type=\"int\"/>\
<reg name=\"x19\" bitsize=\"32\" type=\"int\"/>\
<reg name=\"x20\" bitsize=\"32\" type=\"int\"/>\
<reg name=\"x21\" bitsize=\"32\" type=\"int\"/>\
<reg name=\"x22\" bitsize=\"32\" type=\"int\"/>\
<reg name=\"x23\" bitsize=\"32\" type=\"int\"/>\
<reg name=\"x24\" bitsize=\"32\" type=\"int\"/>\
<reg name=\"x25\" bitsize=\"32\" type=\"int\"/>\
<reg name=\"x26\" bitsize=\"32\" type=\"int\"/>\
<reg name=\"x27\" bitsize=\"32\" type=\"int\"/>\
<reg name=\"x28\" bitsize=\"32\" type=\"int\"/>\
<reg name=\"x29\" bitsize=\"32\" type=\"int\"/>\
<reg name=\"x30\" bitsize=\"32\" type=\"int\"/>\
<reg name=\"x31\" bitsize=\"32\" type=\"int\"/>\
<reg name=\"pc\" bitsize=\"32\" type=\"code_ptr\"/></feature></target>";
