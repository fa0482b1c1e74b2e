// The opcodes of source 000: their bytes, and the lengths of their payloads; and the kinds of a push value.
#![tactic(auto)]

ghost use Rattle.std.specs.Prelude.{◌≡◌, ◌+◌, ◌≤◌};
ghost use Rattle.layout.specs.Lists.{each};
ghost use Rattle.layout.specs.OpCode.{byte, opcodes};
ghost use Rattle.layout.specs.Tree.{Constant};
ghost use Rattle.layout.specs.Lengths.{push_length, goto_frame2_length};
ghost use Rattle.opcode.specs.Listed.{listed};
ghost use Rattle.opcode.specs.Kinds.{IsKind};

// The opcodes' bytes: a type that only names them, as docs/DECISIONS.md's forms ask. The constants are those of OpCode of source 000, in that order. They are bytes and no enum, since an opcode is
// matched and written as its byte: an enum of a hundred would take a match from the byte besides, which an action's own match repeats.
#[derive(Clone, Copy)]
pub struct OpCode(pub u8);

impl OpCode {
    pub const END: u8 = 0x00;

    pub const NEXT_FRAME: u8 = 0x04;

    pub const PREVIOUS_FRAME: u8 = 0x05;

    pub const PLAY: u8 = 0x06;

    pub const STOP: u8 = 0x07;

    pub const TOGGLE_QUALITY: u8 = 0x08;

    pub const STOP_SOUNDS: u8 = 0x09;

    pub const ADD: u8 = 0x0A;

    pub const SUBTRACT: u8 = 0x0B;

    pub const MULTIPLY: u8 = 0x0C;

    pub const DIVIDE: u8 = 0x0D;

    pub const EQUALS: u8 = 0x0E;

    pub const LESS: u8 = 0x0F;

    pub const AND: u8 = 0x10;

    pub const OR: u8 = 0x11;

    pub const NOT: u8 = 0x12;

    pub const STRING_EQUALS: u8 = 0x13;

    pub const STRING_LENGTH: u8 = 0x14;

    pub const STRING_EXTRACT: u8 = 0x15;

    pub const POP: u8 = 0x17;

    pub const TO_INTEGER: u8 = 0x18;

    pub const GET_VARIABLE: u8 = 0x1C;

    pub const SET_VARIABLE: u8 = 0x1D;

    pub const SET_TARGET2: u8 = 0x20;

    pub const STRING_ADD: u8 = 0x21;

    pub const GET_PROPERTY: u8 = 0x22;

    pub const SET_PROPERTY: u8 = 0x23;

    pub const CLONE_SPRITE: u8 = 0x24;

    pub const REMOVE_SPRITE: u8 = 0x25;

    pub const TRACE: u8 = 0x26;

    pub const START_DRAG: u8 = 0x27;

    pub const END_DRAG: u8 = 0x28;

    pub const STRING_LESS: u8 = 0x29;

    pub const THROW: u8 = 0x2A;

    pub const CAST_OP: u8 = 0x2B;

    pub const IMPLEMENTS_OP: u8 = 0x2C;

    pub const RANDOM_NUMBER: u8 = 0x30;

    pub const MB_STRING_LENGTH: u8 = 0x31;

    pub const CHAR_TO_ASCII: u8 = 0x32;

    pub const ASCII_TO_CHAR: u8 = 0x33;

    pub const GET_TIME: u8 = 0x34;

    pub const MB_STRING_EXTRACT: u8 = 0x35;

    pub const MB_CHAR_TO_ASCII: u8 = 0x36;

    pub const MB_ASCII_TO_CHAR: u8 = 0x37;

    pub const DELETE: u8 = 0x3A;

    pub const DELETE2: u8 = 0x3B;

    pub const DEFINE_LOCAL: u8 = 0x3C;

    pub const CALL_FUNCTION: u8 = 0x3D;

    pub const RETURN: u8 = 0x3E;

    pub const MODULO: u8 = 0x3F;

    pub const NEW_OBJECT: u8 = 0x40;

    pub const DEFINE_LOCAL2: u8 = 0x41;

    pub const INIT_ARRAY: u8 = 0x42;

    pub const INIT_OBJECT: u8 = 0x43;

    pub const TYPE_OF: u8 = 0x44;

    pub const TARGET_PATH: u8 = 0x45;

    pub const ENUMERATE: u8 = 0x46;

    pub const ADD2: u8 = 0x47;

    pub const LESS2: u8 = 0x48;

    pub const EQUALS2: u8 = 0x49;

    pub const TO_NUMBER: u8 = 0x4A;

    pub const TO_STRING: u8 = 0x4B;

    pub const PUSH_DUPLICATE: u8 = 0x4C;

    pub const STACK_SWAP: u8 = 0x4D;

    pub const GET_MEMBER: u8 = 0x4E;

    pub const SET_MEMBER: u8 = 0x4F;

    pub const INCREMENT: u8 = 0x50;

    pub const DECREMENT: u8 = 0x51;

    pub const CALL_METHOD: u8 = 0x52;

    pub const NEW_METHOD: u8 = 0x53;

    pub const INSTANCE_OF: u8 = 0x54;

    pub const ENUMERATE2: u8 = 0x55;

    pub const BIT_AND: u8 = 0x60;

    pub const BIT_OR: u8 = 0x61;

    pub const BIT_XOR: u8 = 0x62;

    pub const BIT_L_SHIFT: u8 = 0x63;

    pub const BIT_R_SHIFT: u8 = 0x64;

    pub const BIT_U_R_SHIFT: u8 = 0x65;

    pub const STRICT_EQUALS: u8 = 0x66;

    pub const GREATER: u8 = 0x67;

    pub const STRING_GREATER: u8 = 0x68;

    pub const EXTENDS: u8 = 0x69;

    pub const GOTO_FRAME: u8 = 0x81;

    pub const GET_URL: u8 = 0x83;

    pub const STORE_REGISTER: u8 = 0x87;

    pub const CONSTANT_POOL: u8 = 0x88;

    pub const WAIT_FOR_FRAME: u8 = 0x8A;

    pub const SET_TARGET: u8 = 0x8B;

    pub const GOTO_LABEL: u8 = 0x8C;

    pub const WAIT_FOR_FRAME2: u8 = 0x8D;

    pub const DEFINE_FUNCTION2: u8 = 0x8E;

    pub const TRY: u8 = 0x8F;

    pub const WITH: u8 = 0x94;

    pub const PUSH: u8 = 0x96;

    pub const JUMP: u8 = 0x99;

    pub const GET_URL2: u8 = 0x9A;

    pub const DEFINE_FUNCTION: u8 = 0x9B;

    pub const IF: u8 = 0x9D;

    pub const CALL: u8 = 0x9E;

    pub const GOTO_FRAME2: u8 = 0x9F;

    // The listed opcodes as bits, 64 to a word: opcode n is bit n % 64 of word n / 64, and a word's name has its first opcode. Bits
    // count from the right, so each group of four digits has sixteen opcodes.
    const LISTED_00: u64 = 0xFCFF_1FFF_31BF_FFF1;

    const LISTED_40: u64 = 0x0000_03FF_003F_FFFF;

    const LISTED_80: u64 = 0x0000_0000_EE50_FD8A;

    const LISTED_C0: u64 = 0x0000_0000_0000_0000;

    // Whether an opcode is listed in OpCode of source 000.
    pub fn is_listed(op: u8) -> bool
        ensures { result ≡ listed op }
    {
        let word = match op / 64 {
            0 => OpCode::LISTED_00,
            1 => OpCode::LISTED_40,
            2 => OpCode::LISTED_80,
            _ => OpCode::LISTED_C0,
        };
        (word >> (op % 64)) % 2 == 1
    }

    // Every opcode's byte, in the order of the definitions' list: those without a field, then those with some.
    const ALL: [u8; 100] = [
        OpCode::END,
        OpCode::NEXT_FRAME,
        OpCode::PREVIOUS_FRAME,
        OpCode::PLAY,
        OpCode::STOP,
        OpCode::TOGGLE_QUALITY,
        OpCode::STOP_SOUNDS,
        OpCode::ADD,
        OpCode::SUBTRACT,
        OpCode::MULTIPLY,
        OpCode::DIVIDE,
        OpCode::EQUALS,
        OpCode::LESS,
        OpCode::AND,
        OpCode::OR,
        OpCode::NOT,
        OpCode::STRING_EQUALS,
        OpCode::STRING_LENGTH,
        OpCode::STRING_EXTRACT,
        OpCode::POP,
        OpCode::TO_INTEGER,
        OpCode::GET_VARIABLE,
        OpCode::SET_VARIABLE,
        OpCode::SET_TARGET2,
        OpCode::STRING_ADD,
        OpCode::GET_PROPERTY,
        OpCode::SET_PROPERTY,
        OpCode::CLONE_SPRITE,
        OpCode::REMOVE_SPRITE,
        OpCode::TRACE,
        OpCode::START_DRAG,
        OpCode::END_DRAG,
        OpCode::STRING_LESS,
        OpCode::THROW,
        OpCode::CAST_OP,
        OpCode::IMPLEMENTS_OP,
        OpCode::RANDOM_NUMBER,
        OpCode::MB_STRING_LENGTH,
        OpCode::CHAR_TO_ASCII,
        OpCode::ASCII_TO_CHAR,
        OpCode::GET_TIME,
        OpCode::MB_STRING_EXTRACT,
        OpCode::MB_CHAR_TO_ASCII,
        OpCode::MB_ASCII_TO_CHAR,
        OpCode::DELETE,
        OpCode::DELETE2,
        OpCode::DEFINE_LOCAL,
        OpCode::CALL_FUNCTION,
        OpCode::RETURN,
        OpCode::MODULO,
        OpCode::NEW_OBJECT,
        OpCode::DEFINE_LOCAL2,
        OpCode::INIT_ARRAY,
        OpCode::INIT_OBJECT,
        OpCode::TYPE_OF,
        OpCode::TARGET_PATH,
        OpCode::ENUMERATE,
        OpCode::ADD2,
        OpCode::LESS2,
        OpCode::EQUALS2,
        OpCode::TO_NUMBER,
        OpCode::TO_STRING,
        OpCode::PUSH_DUPLICATE,
        OpCode::STACK_SWAP,
        OpCode::GET_MEMBER,
        OpCode::SET_MEMBER,
        OpCode::INCREMENT,
        OpCode::DECREMENT,
        OpCode::CALL_METHOD,
        OpCode::NEW_METHOD,
        OpCode::INSTANCE_OF,
        OpCode::ENUMERATE2,
        OpCode::BIT_AND,
        OpCode::BIT_OR,
        OpCode::BIT_XOR,
        OpCode::BIT_L_SHIFT,
        OpCode::BIT_R_SHIFT,
        OpCode::BIT_U_R_SHIFT,
        OpCode::STRICT_EQUALS,
        OpCode::GREATER,
        OpCode::STRING_GREATER,
        OpCode::EXTENDS,
        OpCode::CALL,
        OpCode::GOTO_FRAME,
        OpCode::GET_URL,
        OpCode::STORE_REGISTER,
        OpCode::CONSTANT_POOL,
        OpCode::WAIT_FOR_FRAME,
        OpCode::SET_TARGET,
        OpCode::GOTO_LABEL,
        OpCode::WAIT_FOR_FRAME2,
        OpCode::DEFINE_FUNCTION2,
        OpCode::TRY,
        OpCode::WITH,
        OpCode::PUSH,
        OpCode::JUMP,
        OpCode::GET_URL2,
        OpCode::DEFINE_FUNCTION,
        OpCode::IF,
        OpCode::GOTO_FRAME2,
    ];

    // That list: it states what each constant is.
    pub fn all() -> [u8; 100]
        ensures { result ≡ each byte opcodes }
    {
        OpCode::ALL
    }

    // An opcode under 80 is an action's only byte. One from 80 on is followed by the length of its payload: three bytes, which are
    // the action's header.
    pub const SMALL_LEN: usize = 1;

    pub const HEADER_LEN: usize = 3;

    // Payloads of one length, whatever they hold: a byte (StoreRegister, WaitForFrame2, GetUrl2), a u16 (GotoFrame, With, Jump,
    // If), both (WaitForFrame), or nothing (Call). What measures and what writes by them is proved against the definitions.
    pub const U8_LEN: usize = 1;

    pub const U16_LEN: usize = 2;

    pub const WAIT_FOR_FRAME_LEN: usize = 3;

    pub const CALL_LEN: usize = 0;

    // Pushed values with their kind: the kind alone (null, undefined, and before a string), with a byte (a register, a boolean),
    // with an integer, with a double.
    pub const PUSH_KIND_LEN: usize = 1;

    pub const PUSH_U8_LEN: usize = 2;

    pub const PUSH_INTEGER_LEN: usize = 5;

    pub const PUSH_FLOAT_LEN: usize = 9;

    // The formulas below differ in a constant or two. Each stays a function with the name of its action, by which what measures, what
    // writes a header and docs/ACTIONS.md know it: one with the constant as a parameter would move the format's numbers to the callers.

    // A string of this length and its zero byte: the payload of a SetTarget or a GotoLabel, and a string of a list. PayloadLengths
    // proves of this formula, and of those below, that it is the length of the definitions' payload.
    pub fn string_len(string: usize) -> usize
        requires { string ≤ 1099511627776 }
        ensures { result ≡ string + 1 }
    {
        string + 1
    }

    // A GetUrl's payload, from the lengths of its strings.
    pub fn get_url_len(url: usize, target: usize) -> usize
        requires { (url ≤ 1099511627776) × (target ≤ 1099511627776) }
        ensures { result ≡ url + target + 2 }
    {
        url + target + 2
    }

    // A ConstantPool's payload, from the total length of its strings, each with its zero byte.
    pub fn constant_pool_len(sum: usize) -> usize
        requires { sum ≤ 1099511627776 }
        ensures { result ≡ 2 + sum }
    {
        2 + sum
    }

    // A DefineFunction's payload, from the length of its name and the total length of its parameters.
    pub fn define_function_len(name: usize, sum: usize) -> usize
        requires { (name ≤ 1099511627776) × (sum ≤ 1099511627776) }
        ensures { result ≡ name + 5 + sum }
    {
        name + 5 + sum
    }

    // The same for a DefineFunction2.
    pub fn define_function_2_len(name: usize, sum: usize) -> usize
        requires { (name ≤ 1099511627776) × (sum ≤ 1099511627776) }
        ensures { result ≡ name + 8 + sum }
    {
        name + 8 + sum
    }

    // A Try's payload, from the number of bytes of its catch target: a name with its zero byte, or one byte.
    pub fn try_len(name: usize) -> usize
        requires { name ≤ 1099511627776 }
        ensures { result ≡ 7 + name }
    {
        7 + name
    }

    // A Push's payload, from the total length of its values: their count is not written.
    pub fn push_len(sum: usize) -> usize
        ensures { result ≡ sum }
    {
        sum
    }

    // A pushed constant: its kind and its number.
    pub fn push_constant_len(n: usize) -> usize
        ensures { result ≡ push_length (Constant n) }
    {
        if n < 256 { 2 } else { 3 }
    }

    // A GotoFrame2's payload.
    pub fn goto_frame_2_len(bias: usize) -> usize
        ensures { result ≡ goto_frame2_length bias }
    {
        if bias == 0 { 1 } else { 3 }
    }
}

// The kind of a push value, with its byte in a sheet.
#[derive(Clone, Copy)]
pub enum PushKind {
    String = 0,
    Null = 2,
    Undefined = 3,
    Register = 4,
    Boolean = 5,
    Float = 6,
    Integer = 7,
    Constant = 8,
}

impl PushKind {
    // The kind that a byte stands for. It is no TryFrom, whose error each caller would drop.
    #[tactic(auto, unfolding(crate::specs::Kinds::meant, layout::specs::PushKind::kind_of, layout::specs::PushKind::kind_byte, layout::specs::PushKind::push_kinds, layout::specs::Lists::first_with, layout::specs::Lists::pick))]
    pub fn of(byte: u8) -> Option<PushKind>
        ensures { IsKind byte result }
    {
        match byte {
            0 => Some(PushKind::String),
            2 => Some(PushKind::Null),
            3 => Some(PushKind::Undefined),
            4 => Some(PushKind::Register),
            5 => Some(PushKind::Boolean),
            6 => Some(PushKind::Float),
            7 => Some(PushKind::Integer),
            8 => Some(PushKind::Constant),
            _ => None,
        }
    }
}
