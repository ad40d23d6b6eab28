// Table 7-8 as data without an address, as the sender reads it: the cells, each once under its name, and the rows. The module `table` has the same
// cells with their actions as the standard lists them.
use fop::Action::{
    self, Accept, AcceptBd, AdOutReady, AddToWaitQueue, Alert, BcOutReady, BdOutReady, CancelTimer,
    Confirm, Ignore, Initialise, InitiateAdRetransmission, InitiateBcRetransmission,
    LookForDirective, LookForFdu, Reject, RejectAd, RejectBd, ReleaseBcFrame,
    RemoveAcknowledgedFrames, Resume, SetK, SetNnr, SetSuspendState, SetT1Initial, SetTimeoutType,
    SetTransmissionLimit, SetVs, StartTimer, Suspend, TransmitBd, TransmitSetVr, TransmitUnlock,
};
use fop::Alert::{Clcw, Limit, Llif, Lockout, Nnr, Synch, T1, Term};
use fop::State::{self, S1, S2, S3, S4, S5, S6};

// A cell: its actions in their order, filled up with Ignore, and the next state; None keeps the state. No cell holds an address, so the
// library keeps no variables, wherever it is loaded.
#[derive(Clone, Copy)]
pub struct FilledCell {
    pub actions: (Action, Action, Action, Action, Action),
    pub next: Option<State>,
}

// "Not Applicable".
pub const NOT_APPLICABLE: FilledCell = FilledCell {
    actions: (Ignore, Ignore, Ignore, Ignore, Ignore),
    next: None,
};

// "Ignore", where the state stays.
const IGNORED: FilledCell = FilledCell {
    actions: (Ignore, Ignore, Ignore, Ignore, Ignore),
    next: None,
};

const TO_ALERT_SYNCH: FilledCell = FilledCell {
    actions: (Alert(Synch), Ignore, Ignore, Ignore, Ignore),
    next: Some(S6),
};

const TO_ALERT_CLCW: FilledCell = FilledCell {
    actions: (Alert(Clcw), Ignore, Ignore, Ignore, Ignore),
    next: Some(S6),
};

const TO_ALERT_LIMIT: FilledCell = FilledCell {
    actions: (Alert(Limit), Ignore, Ignore, Ignore, Ignore),
    next: Some(S6),
};

const TO_ALERT_NNR: FilledCell = FilledCell {
    actions: (Alert(Nnr), Ignore, Ignore, Ignore, Ignore),
    next: Some(S6),
};

const TO_ALERT_LOCKOUT: FilledCell = FilledCell {
    actions: (Alert(Lockout), Ignore, Ignore, Ignore, Ignore),
    next: Some(S6),
};

const TO_ALERT_T1: FilledCell = FilledCell {
    actions: (Alert(T1), Ignore, Ignore, Ignore, Ignore),
    next: Some(S6),
};

const TO_ALERT_LLIF: FilledCell = FilledCell {
    actions: (Alert(Llif), Ignore, Ignore, Ignore, Ignore),
    next: Some(S6),
};

const CHECKED: FilledCell = FilledCell {
    actions: (Confirm, CancelTimer, Ignore, Ignore, Ignore),
    next: Some(S1),
};

const CARRIED_OUT: FilledCell = FilledCell {
    actions: (Confirm, ReleaseBcFrame, CancelTimer, Ignore, Ignore),
    next: Some(S1),
};

const ALL_ACKNOWLEDGED: FilledCell = FilledCell {
    actions: (
        RemoveAcknowledgedFrames,
        CancelTimer,
        LookForFdu,
        Ignore,
        Ignore,
    ),
    next: Some(S1),
};

const SOME_ACKNOWLEDGED: FilledCell = FilledCell {
    actions: (RemoveAcknowledgedFrames, LookForFdu, Ignore, Ignore, Ignore),
    next: Some(S1),
};

const ACKNOWLEDGED_LIMIT: FilledCell = FilledCell {
    actions: (
        RemoveAcknowledgedFrames,
        Alert(Limit),
        Ignore,
        Ignore,
        Ignore,
    ),
    next: Some(S6),
};

const ACKNOWLEDGED_AGAIN: FilledCell = FilledCell {
    actions: (
        RemoveAcknowledgedFrames,
        InitiateAdRetransmission,
        LookForFdu,
        Ignore,
        Ignore,
    ),
    next: Some(S2),
};

const ACKNOWLEDGED_WAIT: FilledCell = FilledCell {
    actions: (RemoveAcknowledgedFrames, Ignore, Ignore, Ignore, Ignore),
    next: Some(S3),
};

const AGAIN: FilledCell = FilledCell {
    actions: (InitiateAdRetransmission, LookForFdu, Ignore, Ignore, Ignore),
    next: None,
};

const AGAIN_TO_S2: FilledCell = FilledCell {
    next: Some(S2),
    ..AGAIN
};

const AGAIN_BC: FilledCell = FilledCell {
    actions: (
        InitiateBcRetransmission,
        LookForDirective,
        Ignore,
        Ignore,
        Ignore,
    ),
    next: None,
};

const TO_S2: FilledCell = FilledCell {
    actions: (Ignore, Ignore, Ignore, Ignore, Ignore),
    next: Some(S2),
};

const TO_S3: FilledCell = FilledCell {
    actions: (Ignore, Ignore, Ignore, Ignore, Ignore),
    next: Some(S3),
};

const SUSPEND_1: FilledCell = FilledCell {
    actions: (SetSuspendState(1), Suspend, Ignore, Ignore, Ignore),
    next: Some(S6),
};

const SUSPEND_2: FilledCell = FilledCell {
    actions: (SetSuspendState(2), Suspend, Ignore, Ignore, Ignore),
    next: Some(S6),
};

const SUSPEND_3: FilledCell = FilledCell {
    actions: (SetSuspendState(3), Suspend, Ignore, Ignore, Ignore),
    next: Some(S6),
};

const SUSPEND_4: FilledCell = FilledCell {
    actions: (SetSuspendState(4), Suspend, Ignore, Ignore, Ignore),
    next: Some(S6),
};

const ADD_AND_LOOK: FilledCell = FilledCell {
    actions: (AddToWaitQueue, LookForFdu, Ignore, Ignore, Ignore),
    next: None,
};

const ADD: FilledCell = FilledCell {
    actions: (AddToWaitQueue, Ignore, Ignore, Ignore, Ignore),
    next: None,
};

const REJECTED_AD: FilledCell = FilledCell {
    actions: (RejectAd, Ignore, Ignore, Ignore, Ignore),
    next: None,
};

const SEND_BD: FilledCell = FilledCell {
    actions: (TransmitBd, Ignore, Ignore, Ignore, Ignore),
    next: None,
};

const REJECTED_BD: FilledCell = FilledCell {
    actions: (RejectBd, Ignore, Ignore, Ignore, Ignore),
    next: None,
};

const REJECTED: FilledCell = FilledCell {
    actions: (Reject, Ignore, Ignore, Ignore, Ignore),
    next: None,
};

const INITIATE: FilledCell = FilledCell {
    actions: (Accept, Initialise, Confirm, Ignore, Ignore),
    next: Some(S1),
};

const INITIATE_CHECK: FilledCell = FilledCell {
    actions: (Accept, Initialise, StartTimer, Ignore, Ignore),
    next: Some(S4),
};

const INITIATE_UNLOCK: FilledCell = FilledCell {
    actions: (Accept, Initialise, TransmitUnlock, Ignore, Ignore),
    next: Some(S5),
};

const INITIATE_SET_VR: FilledCell = FilledCell {
    actions: (Accept, Initialise, SetVs, SetNnr, TransmitSetVr),
    next: Some(S5),
};

const TERMINATE: FilledCell = FilledCell {
    actions: (Accept, Alert(Term), Confirm, Ignore, Ignore),
    next: Some(S6),
};

const TERMINATED: FilledCell = FilledCell {
    actions: (Accept, Confirm, Ignore, Ignore, Ignore),
    next: None,
};

const RESUME_1: FilledCell = FilledCell {
    actions: (Accept, Resume, Confirm, Ignore, Ignore),
    next: Some(S1),
};

const RESUME_2: FilledCell = FilledCell {
    actions: (Accept, Resume, Confirm, Ignore, Ignore),
    next: Some(S2),
};

const RESUME_3: FilledCell = FilledCell {
    actions: (Accept, Resume, Confirm, Ignore, Ignore),
    next: Some(S3),
};

const RESUME_4: FilledCell = FilledCell {
    actions: (Accept, Resume, Confirm, Ignore, Ignore),
    next: Some(S4),
};

const NUMBERS_SET: FilledCell = FilledCell {
    actions: (Accept, SetVs, SetNnr, Confirm, Ignore),
    next: None,
};

const K_SET: FilledCell = FilledCell {
    actions: (Accept, SetK, Confirm, Ignore, Ignore),
    next: None,
};

const T1_SET: FilledCell = FilledCell {
    actions: (Accept, SetT1Initial, Confirm, Ignore, Ignore),
    next: None,
};

const LIMIT_SET: FilledCell = FilledCell {
    actions: (Accept, SetTransmissionLimit, Confirm, Ignore, Ignore),
    next: None,
};

const TIMEOUT_TYPE_SET: FilledCell = FilledCell {
    actions: (Accept, SetTimeoutType, Confirm, Ignore, Ignore),
    next: None,
};

const AD_READY_LOOK: FilledCell = FilledCell {
    actions: (AdOutReady, LookForFdu, Ignore, Ignore, Ignore),
    next: None,
};

const AD_READY: FilledCell = FilledCell {
    actions: (AdOutReady, Ignore, Ignore, Ignore, Ignore),
    next: None,
};

const BC_READY_LOOK: FilledCell = FilledCell {
    actions: (BcOutReady, LookForDirective, Ignore, Ignore, Ignore),
    next: None,
};

const BC_READY: FilledCell = FilledCell {
    actions: (BcOutReady, Ignore, Ignore, Ignore, Ignore),
    next: None,
};

const BD_READY: FilledCell = FilledCell {
    actions: (BdOutReady, AcceptBd, Ignore, Ignore, Ignore),
    next: None,
};

// The rows, each with its cells in S1 to S6: E1 to E46, E101 to E104. E1 to E14 and E101 to E103 are those of a valid CLCW, all but
// E14 with Lockout Flag = 0; E23 to E40 those of a directive; E41 to E46 those of a response from the lower layer.
pub const ROWS: &[[FilledCell; 6]; 50] = &[
    // E1: N(R) = V(S), Retransmit Flag = 0, Wait Flag = 0, N(R) = NN(R).
    [
        IGNORED,
        TO_ALERT_SYNCH,
        TO_ALERT_SYNCH,
        CHECKED,
        CARRIED_OUT,
        IGNORED,
    ],
    // E2: N(R) = V(S), Retransmit Flag = 0, Wait Flag = 0, N(R) <> NN(R).
    [
        ALL_ACKNOWLEDGED,
        ALL_ACKNOWLEDGED,
        ALL_ACKNOWLEDGED,
        NOT_APPLICABLE,
        NOT_APPLICABLE,
        IGNORED,
    ],
    // E3: N(R) = V(S), Retransmit Flag = 0, Wait Flag = 1.
    [
        TO_ALERT_CLCW,
        TO_ALERT_CLCW,
        TO_ALERT_CLCW,
        TO_ALERT_CLCW,
        TO_ALERT_CLCW,
        IGNORED,
    ],
    // E4: N(R) = V(S), Retransmit Flag = 1.
    [
        TO_ALERT_SYNCH,
        TO_ALERT_SYNCH,
        TO_ALERT_SYNCH,
        TO_ALERT_SYNCH,
        IGNORED,
        IGNORED,
    ],
    // E5: NN(R) <= N(R) < V(S), Retransmit Flag = 0, Wait Flag = 0, N(R) = NN(R).
    [
        IGNORED,
        TO_ALERT_SYNCH,
        TO_ALERT_SYNCH,
        NOT_APPLICABLE,
        NOT_APPLICABLE,
        IGNORED,
    ],
    // E6: NN(R) <= N(R) < V(S), Retransmit Flag = 0, Wait Flag = 0, N(R) <> NN(R).
    [
        SOME_ACKNOWLEDGED,
        SOME_ACKNOWLEDGED,
        SOME_ACKNOWLEDGED,
        NOT_APPLICABLE,
        NOT_APPLICABLE,
        IGNORED,
    ],
    // E7: NN(R) <= N(R) < V(S), Retransmit Flag = 0, Wait Flag = 1.
    [
        TO_ALERT_CLCW,
        TO_ALERT_CLCW,
        TO_ALERT_CLCW,
        NOT_APPLICABLE,
        NOT_APPLICABLE,
        IGNORED,
    ],
    // E8: NN(R) <= N(R) < V(S), Retransmit Flag = 1, Transmission_Limit > 1, N(R) <> NN(R), Wait Flag = 0.
    [
        ACKNOWLEDGED_AGAIN,
        ACKNOWLEDGED_AGAIN,
        ACKNOWLEDGED_AGAIN,
        NOT_APPLICABLE,
        NOT_APPLICABLE,
        IGNORED,
    ],
    // E9: as E8, Wait Flag = 1.
    [
        ACKNOWLEDGED_WAIT,
        ACKNOWLEDGED_WAIT,
        ACKNOWLEDGED_WAIT,
        NOT_APPLICABLE,
        NOT_APPLICABLE,
        IGNORED,
    ],
    // E10: NN(R) <= N(R) < V(S), Retransmit Flag = 1, Transmission_Limit > 1, N(R) = NN(R), Transmission_Count < Transmission_Limit, Wait Flag = 0.
    [
        AGAIN_TO_S2,
        IGNORED,
        AGAIN_TO_S2,
        NOT_APPLICABLE,
        NOT_APPLICABLE,
        IGNORED,
    ],
    // E11: as E10, Wait Flag = 1.
    [TO_S3, TO_S3, TO_S3, NOT_APPLICABLE, NOT_APPLICABLE, IGNORED],
    // E12: as E10, Transmission_Count >= Transmission_Limit, Wait Flag = 0.
    [TO_S2, TO_S2, TO_S2, NOT_APPLICABLE, NOT_APPLICABLE, IGNORED],
    // E13: N(R) < NN(R) or > V(S).
    [
        TO_ALERT_NNR,
        TO_ALERT_NNR,
        TO_ALERT_NNR,
        TO_ALERT_NNR,
        IGNORED,
        IGNORED,
    ],
    // E14: Lockout Flag = 1.
    [
        TO_ALERT_LOCKOUT,
        TO_ALERT_LOCKOUT,
        TO_ALERT_LOCKOUT,
        TO_ALERT_LOCKOUT,
        IGNORED,
        IGNORED,
    ],
    // E15: CLCW with pattern of bits invalid under COP-1.
    [
        TO_ALERT_CLCW,
        TO_ALERT_CLCW,
        TO_ALERT_CLCW,
        TO_ALERT_CLCW,
        TO_ALERT_CLCW,
        IGNORED,
    ],
    // E16: Timer expires, Transmission_Count < Transmission_Limit, Timeout_Type = 0.
    [AGAIN, AGAIN, IGNORED, TO_ALERT_T1, AGAIN_BC, NOT_APPLICABLE],
    // E17: Timer expires, Transmission_Count >= Transmission_Limit, Timeout_Type = 0.
    [
        TO_ALERT_T1,
        TO_ALERT_T1,
        TO_ALERT_T1,
        TO_ALERT_T1,
        TO_ALERT_T1,
        NOT_APPLICABLE,
    ],
    // E18: Timer expires, Transmission_Count >= Transmission_Limit, Timeout_Type = 1.
    [
        SUSPEND_1,
        SUSPEND_2,
        SUSPEND_3,
        SUSPEND_4,
        TO_ALERT_T1,
        NOT_APPLICABLE,
    ],
    // E19: Request to Transfer FDU, AD Service, Wait_Queue empty.
    [
        ADD_AND_LOOK,
        ADD_AND_LOOK,
        ADD,
        REJECTED_AD,
        REJECTED_AD,
        REJECTED_AD,
    ],
    // E20: Request to Transfer FDU, AD Service, Wait_Queue not empty.
    [
        REJECTED_AD,
        REJECTED_AD,
        REJECTED_AD,
        REJECTED_AD,
        REJECTED_AD,
        REJECTED_AD,
    ],
    // E21: Request to Transfer FDU, BD Service, BD_Out_Flag = Ready.
    [SEND_BD, SEND_BD, SEND_BD, SEND_BD, SEND_BD, SEND_BD],
    // E22: Request to Transfer FDU, BD Service, BD_Out_Flag = Not_Ready.
    [
        REJECTED_BD,
        REJECTED_BD,
        REJECTED_BD,
        REJECTED_BD,
        REJECTED_BD,
        REJECTED_BD,
    ],
    // E23: Initiate AD Service (without CLCW check).
    [REJECTED, REJECTED, REJECTED, REJECTED, REJECTED, INITIATE],
    // E24: Initiate AD Service (with CLCW check).
    [
        REJECTED,
        REJECTED,
        REJECTED,
        REJECTED,
        REJECTED,
        INITIATE_CHECK,
    ],
    // E25: Initiate AD Service (with Unlock), BC_Out_Flag = Ready.
    [
        REJECTED,
        REJECTED,
        REJECTED,
        REJECTED,
        REJECTED,
        INITIATE_UNLOCK,
    ],
    // E26: Initiate AD Service (with Unlock), BC_Out_Flag = Not_Ready.
    [REJECTED, REJECTED, REJECTED, REJECTED, REJECTED, REJECTED],
    // E27: Initiate AD Service (with Set V(R)), BC_Out_Flag = Ready.
    [
        REJECTED,
        REJECTED,
        REJECTED,
        REJECTED,
        REJECTED,
        INITIATE_SET_VR,
    ],
    // E28: Initiate AD Service (with Set V(R)), BC_Out_Flag = Not_Ready.
    [REJECTED, REJECTED, REJECTED, REJECTED, REJECTED, REJECTED],
    // E29: Terminate AD Service.
    [
        TERMINATE, TERMINATE, TERMINATE, TERMINATE, TERMINATE, TERMINATED,
    ],
    // E30: Resume AD Service, SS = 0.
    [REJECTED, REJECTED, REJECTED, REJECTED, REJECTED, REJECTED],
    // E31: Resume AD Service, SS = 1.
    [
        NOT_APPLICABLE,
        NOT_APPLICABLE,
        NOT_APPLICABLE,
        NOT_APPLICABLE,
        NOT_APPLICABLE,
        RESUME_1,
    ],
    // E32: Resume AD Service, SS = 2.
    [
        NOT_APPLICABLE,
        NOT_APPLICABLE,
        NOT_APPLICABLE,
        NOT_APPLICABLE,
        NOT_APPLICABLE,
        RESUME_2,
    ],
    // E33: Resume AD Service, SS = 3.
    [
        NOT_APPLICABLE,
        NOT_APPLICABLE,
        NOT_APPLICABLE,
        NOT_APPLICABLE,
        NOT_APPLICABLE,
        RESUME_3,
    ],
    // E34: Resume AD Service, SS = 4.
    [
        NOT_APPLICABLE,
        NOT_APPLICABLE,
        NOT_APPLICABLE,
        NOT_APPLICABLE,
        NOT_APPLICABLE,
        RESUME_4,
    ],
    // E35: Set V(S) to V*(S), where SS = 0; else the row of E40 is taken.
    [
        REJECTED,
        REJECTED,
        REJECTED,
        REJECTED,
        REJECTED,
        NUMBERS_SET,
    ],
    // E36: Set FOP_Sliding_Window_Width.
    [K_SET, K_SET, K_SET, K_SET, K_SET, K_SET],
    // E37: Set T1_Initial.
    [T1_SET, T1_SET, T1_SET, T1_SET, T1_SET, T1_SET],
    // E38: Set Transmission_Limit.
    [
        LIMIT_SET, LIMIT_SET, LIMIT_SET, LIMIT_SET, LIMIT_SET, LIMIT_SET,
    ],
    // E39: Set Timeout_Type.
    [
        TIMEOUT_TYPE_SET,
        TIMEOUT_TYPE_SET,
        TIMEOUT_TYPE_SET,
        TIMEOUT_TYPE_SET,
        TIMEOUT_TYPE_SET,
        TIMEOUT_TYPE_SET,
    ],
    // E40: Invalid Directive.
    [REJECTED, REJECTED, REJECTED, REJECTED, REJECTED, REJECTED],
    // E41: AD_Accept.
    [
        AD_READY_LOOK,
        AD_READY_LOOK,
        AD_READY,
        AD_READY,
        AD_READY,
        AD_READY,
    ],
    // E42: AD_Reject.
    [
        TO_ALERT_LLIF,
        TO_ALERT_LLIF,
        TO_ALERT_LLIF,
        TO_ALERT_LLIF,
        TO_ALERT_LLIF,
        TO_ALERT_LLIF,
    ],
    // E43: BC_Accept.
    [
        BC_READY,
        BC_READY,
        BC_READY,
        BC_READY,
        BC_READY_LOOK,
        BC_READY,
    ],
    // E44: BC_Reject.
    [
        TO_ALERT_LLIF,
        TO_ALERT_LLIF,
        TO_ALERT_LLIF,
        TO_ALERT_LLIF,
        TO_ALERT_LLIF,
        TO_ALERT_LLIF,
    ],
    // E45: BD_Accept.
    [BD_READY, BD_READY, BD_READY, BD_READY, BD_READY, BD_READY],
    // E46: BD_Reject.
    [
        TO_ALERT_LLIF,
        TO_ALERT_LLIF,
        TO_ALERT_LLIF,
        TO_ALERT_LLIF,
        TO_ALERT_LLIF,
        TO_ALERT_LLIF,
    ],
    // E101: NN(R) <= N(R) < V(S), Retransmit Flag = 1, Transmission_Limit = 1, N(R) <> NN(R).
    [
        ACKNOWLEDGED_LIMIT,
        ACKNOWLEDGED_LIMIT,
        ACKNOWLEDGED_LIMIT,
        NOT_APPLICABLE,
        NOT_APPLICABLE,
        IGNORED,
    ],
    // E102: NN(R) <= N(R) < V(S), Retransmit Flag = 1, Transmission_Limit = 1, N(R) = NN(R).
    [
        TO_ALERT_LIMIT,
        TO_ALERT_LIMIT,
        TO_ALERT_LIMIT,
        NOT_APPLICABLE,
        NOT_APPLICABLE,
        IGNORED,
    ],
    // E103: as E12, Wait Flag = 1.
    [TO_S3, TO_S3, TO_S3, NOT_APPLICABLE, NOT_APPLICABLE, IGNORED],
    // E104: Timer expires, Transmission_Count < Transmission_Limit, Timeout_Type = 1.
    [AGAIN, AGAIN, IGNORED, SUSPEND_4, AGAIN_BC, NOT_APPLICABLE],
];
