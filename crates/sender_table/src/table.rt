// Table 7-8 as data: the cells, each once under its name, and the rows.
use fop::Action::{
    self, Accept, AcceptBd, AdOutReady, AddToWaitQueue, Alert, BcOutReady, BdOutReady, CancelTimer,
    Confirm, Ignore, Initialise, InitiateAdRetransmission, InitiateBcRetransmission,
    LookForDirective, LookForFdu, Reject, RejectAd, RejectBd, ReleaseBcFrame,
    RemoveAcknowledgedFrames, Resume, SetK, SetNnr, SetSuspendState, SetT1Initial, SetTimeoutType,
    SetTransmissionLimit, SetVs, StartTimer, Suspend, TransmitBd, TransmitSetVr, TransmitUnlock,
};
use fop::Alert::{Clcw, Limit, Llif, Lockout, Nnr, Synch, T1, Term};
use fop::State::{self, S1, S2, S3, S4, S5, S6};

// A cell: its actions in their order, and the next state; None keeps the state.
#[derive(Clone, Copy)]
pub struct TableCell {
    pub actions: &'static [Action],
    pub next: Option<State>,
}

// "Not Applicable".
const NOT_APPLICABLE: TableCell = TableCell {
    actions: &[],
    next: None,
};

// "Ignore", where the state stays.
const IGNORED: TableCell = TableCell {
    actions: &[Ignore],
    next: None,
};

const TO_ALERT_SYNCH: TableCell = TableCell {
    actions: &[Alert(Synch)],
    next: Some(S6),
};

const TO_ALERT_CLCW: TableCell = TableCell {
    actions: &[Alert(Clcw)],
    next: Some(S6),
};

const TO_ALERT_LIMIT: TableCell = TableCell {
    actions: &[Alert(Limit)],
    next: Some(S6),
};

const TO_ALERT_NNR: TableCell = TableCell {
    actions: &[Alert(Nnr)],
    next: Some(S6),
};

const TO_ALERT_LOCKOUT: TableCell = TableCell {
    actions: &[Alert(Lockout)],
    next: Some(S6),
};

const TO_ALERT_T1: TableCell = TableCell {
    actions: &[Alert(T1)],
    next: Some(S6),
};

const TO_ALERT_LLIF: TableCell = TableCell {
    actions: &[Alert(Llif)],
    next: Some(S6),
};

const CHECKED: TableCell = TableCell {
    actions: &[Confirm, CancelTimer],
    next: Some(S1),
};

const CARRIED_OUT: TableCell = TableCell {
    actions: &[Confirm, ReleaseBcFrame, CancelTimer],
    next: Some(S1),
};

const ALL_ACKNOWLEDGED: TableCell = TableCell {
    actions: &[RemoveAcknowledgedFrames, CancelTimer, LookForFdu],
    next: Some(S1),
};

const SOME_ACKNOWLEDGED: TableCell = TableCell {
    actions: &[RemoveAcknowledgedFrames, LookForFdu],
    next: Some(S1),
};

const ACKNOWLEDGED_LIMIT: TableCell = TableCell {
    actions: &[RemoveAcknowledgedFrames, Alert(Limit)],
    next: Some(S6),
};

const ACKNOWLEDGED_AGAIN: TableCell = TableCell {
    actions: &[
        RemoveAcknowledgedFrames,
        InitiateAdRetransmission,
        LookForFdu,
    ],
    next: Some(S2),
};

const ACKNOWLEDGED_WAIT: TableCell = TableCell {
    actions: &[RemoveAcknowledgedFrames],
    next: Some(S3),
};

const AGAIN_TO_S2: TableCell = TableCell {
    actions: &[InitiateAdRetransmission, LookForFdu],
    next: Some(S2),
};

const AGAIN: TableCell = TableCell {
    actions: &[InitiateAdRetransmission, LookForFdu],
    next: None,
};

const AGAIN_BC: TableCell = TableCell {
    actions: &[InitiateBcRetransmission, LookForDirective],
    next: None,
};

const TO_S2: TableCell = TableCell {
    actions: &[Ignore],
    next: Some(S2),
};

const TO_S3: TableCell = TableCell {
    actions: &[Ignore],
    next: Some(S3),
};

const SUSPEND_1: TableCell = TableCell {
    actions: &[SetSuspendState(1), Suspend],
    next: Some(S6),
};

const SUSPEND_2: TableCell = TableCell {
    actions: &[SetSuspendState(2), Suspend],
    next: Some(S6),
};

const SUSPEND_3: TableCell = TableCell {
    actions: &[SetSuspendState(3), Suspend],
    next: Some(S6),
};

const SUSPEND_4: TableCell = TableCell {
    actions: &[SetSuspendState(4), Suspend],
    next: Some(S6),
};

const ADD_AND_LOOK: TableCell = TableCell {
    actions: &[AddToWaitQueue, LookForFdu],
    next: None,
};

const ADD: TableCell = TableCell {
    actions: &[AddToWaitQueue],
    next: None,
};

const REJECTED_AD: TableCell = TableCell {
    actions: &[RejectAd],
    next: None,
};

const SEND_BD: TableCell = TableCell {
    actions: &[TransmitBd],
    next: None,
};

const REJECTED_BD: TableCell = TableCell {
    actions: &[RejectBd],
    next: None,
};

const REJECTED: TableCell = TableCell {
    actions: &[Reject],
    next: None,
};

const INITIATE: TableCell = TableCell {
    actions: &[Accept, Initialise, Confirm],
    next: Some(S1),
};

const INITIATE_CHECK: TableCell = TableCell {
    actions: &[Accept, Initialise, StartTimer],
    next: Some(S4),
};

const INITIATE_UNLOCK: TableCell = TableCell {
    actions: &[Accept, Initialise, TransmitUnlock],
    next: Some(S5),
};

const INITIATE_SET_VR: TableCell = TableCell {
    actions: &[Accept, Initialise, SetVs, SetNnr, TransmitSetVr],
    next: Some(S5),
};

const TERMINATE: TableCell = TableCell {
    actions: &[Accept, Alert(Term), Confirm],
    next: Some(S6),
};

const TERMINATED: TableCell = TableCell {
    actions: &[Accept, Confirm],
    next: None,
};

const RESUME_1: TableCell = TableCell {
    actions: &[Accept, Resume, Confirm],
    next: Some(S1),
};

const RESUME_2: TableCell = TableCell {
    actions: &[Accept, Resume, Confirm],
    next: Some(S2),
};

const RESUME_3: TableCell = TableCell {
    actions: &[Accept, Resume, Confirm],
    next: Some(S3),
};

const RESUME_4: TableCell = TableCell {
    actions: &[Accept, Resume, Confirm],
    next: Some(S4),
};

const NUMBERS_SET: TableCell = TableCell {
    actions: &[Accept, SetVs, SetNnr, Confirm],
    next: None,
};

const K_SET: TableCell = TableCell {
    actions: &[Accept, SetK, Confirm],
    next: None,
};

const T1_SET: TableCell = TableCell {
    actions: &[Accept, SetT1Initial, Confirm],
    next: None,
};

const LIMIT_SET: TableCell = TableCell {
    actions: &[Accept, SetTransmissionLimit, Confirm],
    next: None,
};

const TIMEOUT_TYPE_SET: TableCell = TableCell {
    actions: &[Accept, SetTimeoutType, Confirm],
    next: None,
};

const AD_READY_LOOK: TableCell = TableCell {
    actions: &[AdOutReady, LookForFdu],
    next: None,
};

const AD_READY: TableCell = TableCell {
    actions: &[AdOutReady],
    next: None,
};

const BC_READY_LOOK: TableCell = TableCell {
    actions: &[BcOutReady, LookForDirective],
    next: None,
};

const BC_READY: TableCell = TableCell {
    actions: &[BcOutReady],
    next: None,
};

const BD_READY: TableCell = TableCell {
    actions: &[BdOutReady, AcceptBd],
    next: None,
};

// The rows, each with its cells in S1 to S6: E1 to E46, E101 to E104. E1 to E14 and E101 to E103 are those of a valid CLCW, all but
// E14 with Lockout Flag = 0; E23 to E40 those of a directive; E41 to E46 those of a response from the lower layer.
pub const ROWS: &[[TableCell; 6]; 50] = &[
    // E1: N(R) = V(S), Retransmit Flag = 0, Wait Flag = 0, N(R) = NN(R).
    [
        IGNORED,
        TO_ALERT_SYNCH,
        TO_ALERT_SYNCH,
        CHECKED,
        CARRIED_OUT,
        IGNORED,
    ],
    // E2: N(R) = V(S), Retransmit Flag = 0, Wait Flag = 0, N(R) <> NN(R).
    [
        ALL_ACKNOWLEDGED,
        ALL_ACKNOWLEDGED,
        ALL_ACKNOWLEDGED,
        NOT_APPLICABLE,
        NOT_APPLICABLE,
        IGNORED,
    ],
    // E3: N(R) = V(S), Retransmit Flag = 0, Wait Flag = 1.
    [
        TO_ALERT_CLCW,
        TO_ALERT_CLCW,
        TO_ALERT_CLCW,
        TO_ALERT_CLCW,
        TO_ALERT_CLCW,
        IGNORED,
    ],
    // E4: N(R) = V(S), Retransmit Flag = 1.
    [
        TO_ALERT_SYNCH,
        TO_ALERT_SYNCH,
        TO_ALERT_SYNCH,
        TO_ALERT_SYNCH,
        IGNORED,
        IGNORED,
    ],
    // E5: NN(R) <= N(R) < V(S), Retransmit Flag = 0, Wait Flag = 0, N(R) = NN(R).
    [
        IGNORED,
        TO_ALERT_SYNCH,
        TO_ALERT_SYNCH,
        NOT_APPLICABLE,
        NOT_APPLICABLE,
        IGNORED,
    ],
    // E6: NN(R) <= N(R) < V(S), Retransmit Flag = 0, Wait Flag = 0, N(R) <> NN(R).
    [
        SOME_ACKNOWLEDGED,
        SOME_ACKNOWLEDGED,
        SOME_ACKNOWLEDGED,
        NOT_APPLICABLE,
        NOT_APPLICABLE,
        IGNORED,
    ],
    // E7: NN(R) <= N(R) < V(S), Retransmit Flag = 0, Wait Flag = 1.
    [
        TO_ALERT_CLCW,
        TO_ALERT_CLCW,
        TO_ALERT_CLCW,
        NOT_APPLICABLE,
        NOT_APPLICABLE,
        IGNORED,
    ],
    // E8: NN(R) <= N(R) < V(S), Retransmit Flag = 1, Transmission_Limit > 1, N(R) <> NN(R), Wait Flag = 0.
    [
        ACKNOWLEDGED_AGAIN,
        ACKNOWLEDGED_AGAIN,
        ACKNOWLEDGED_AGAIN,
        NOT_APPLICABLE,
        NOT_APPLICABLE,
        IGNORED,
    ],
    // E9: as E8, Wait Flag = 1.
    [
        ACKNOWLEDGED_WAIT,
        ACKNOWLEDGED_WAIT,
        ACKNOWLEDGED_WAIT,
        NOT_APPLICABLE,
        NOT_APPLICABLE,
        IGNORED,
    ],
    // E10: NN(R) <= N(R) < V(S), Retransmit Flag = 1, Transmission_Limit > 1, N(R) = NN(R), Transmission_Count < Transmission_Limit, Wait Flag = 0.
    [
        AGAIN_TO_S2,
        IGNORED,
        AGAIN_TO_S2,
        NOT_APPLICABLE,
        NOT_APPLICABLE,
        IGNORED,
    ],
    // E11: as E10, Wait Flag = 1.
    [TO_S3, TO_S3, TO_S3, NOT_APPLICABLE, NOT_APPLICABLE, IGNORED],
    // E12: as E10, Transmission_Count >= Transmission_Limit, Wait Flag = 0.
    [TO_S2, TO_S2, TO_S2, NOT_APPLICABLE, NOT_APPLICABLE, IGNORED],
    // E13: N(R) < NN(R) or > V(S).
    [
        TO_ALERT_NNR,
        TO_ALERT_NNR,
        TO_ALERT_NNR,
        TO_ALERT_NNR,
        IGNORED,
        IGNORED,
    ],
    // E14: Lockout Flag = 1.
    [
        TO_ALERT_LOCKOUT,
        TO_ALERT_LOCKOUT,
        TO_ALERT_LOCKOUT,
        TO_ALERT_LOCKOUT,
        IGNORED,
        IGNORED,
    ],
    // E15: CLCW with pattern of bits invalid under COP-1.
    [
        TO_ALERT_CLCW,
        TO_ALERT_CLCW,
        TO_ALERT_CLCW,
        TO_ALERT_CLCW,
        TO_ALERT_CLCW,
        IGNORED,
    ],
    // E16: Timer expires, Transmission_Count < Transmission_Limit, Timeout_Type = 0.
    [AGAIN, AGAIN, IGNORED, TO_ALERT_T1, AGAIN_BC, NOT_APPLICABLE],
    // E17: Timer expires, Transmission_Count >= Transmission_Limit, Timeout_Type = 0.
    [
        TO_ALERT_T1,
        TO_ALERT_T1,
        TO_ALERT_T1,
        TO_ALERT_T1,
        TO_ALERT_T1,
        NOT_APPLICABLE,
    ],
    // E18: Timer expires, Transmission_Count >= Transmission_Limit, Timeout_Type = 1.
    [
        SUSPEND_1,
        SUSPEND_2,
        SUSPEND_3,
        SUSPEND_4,
        TO_ALERT_T1,
        NOT_APPLICABLE,
    ],
    // E19: Request to Transfer FDU, AD Service, Wait_Queue empty.
    [
        ADD_AND_LOOK,
        ADD_AND_LOOK,
        ADD,
        REJECTED_AD,
        REJECTED_AD,
        REJECTED_AD,
    ],
    // E20: Request to Transfer FDU, AD Service, Wait_Queue not empty.
    [
        REJECTED_AD,
        REJECTED_AD,
        REJECTED_AD,
        REJECTED_AD,
        REJECTED_AD,
        REJECTED_AD,
    ],
    // E21: Request to Transfer FDU, BD Service, BD_Out_Flag = Ready.
    [SEND_BD, SEND_BD, SEND_BD, SEND_BD, SEND_BD, SEND_BD],
    // E22: Request to Transfer FDU, BD Service, BD_Out_Flag = Not_Ready.
    [
        REJECTED_BD,
        REJECTED_BD,
        REJECTED_BD,
        REJECTED_BD,
        REJECTED_BD,
        REJECTED_BD,
    ],
    // E23: Initiate AD Service (without CLCW check).
    [REJECTED, REJECTED, REJECTED, REJECTED, REJECTED, INITIATE],
    // E24: Initiate AD Service (with CLCW check).
    [
        REJECTED,
        REJECTED,
        REJECTED,
        REJECTED,
        REJECTED,
        INITIATE_CHECK,
    ],
    // E25: Initiate AD Service (with Unlock), BC_Out_Flag = Ready.
    [
        REJECTED,
        REJECTED,
        REJECTED,
        REJECTED,
        REJECTED,
        INITIATE_UNLOCK,
    ],
    // E26: Initiate AD Service (with Unlock), BC_Out_Flag = Not_Ready.
    [REJECTED, REJECTED, REJECTED, REJECTED, REJECTED, REJECTED],
    // E27: Initiate AD Service (with Set V(R)), BC_Out_Flag = Ready.
    [
        REJECTED,
        REJECTED,
        REJECTED,
        REJECTED,
        REJECTED,
        INITIATE_SET_VR,
    ],
    // E28: Initiate AD Service (with Set V(R)), BC_Out_Flag = Not_Ready.
    [REJECTED, REJECTED, REJECTED, REJECTED, REJECTED, REJECTED],
    // E29: Terminate AD Service.
    [
        TERMINATE, TERMINATE, TERMINATE, TERMINATE, TERMINATE, TERMINATED,
    ],
    // E30: Resume AD Service, SS = 0.
    [REJECTED, REJECTED, REJECTED, REJECTED, REJECTED, REJECTED],
    // E31: Resume AD Service, SS = 1.
    [
        NOT_APPLICABLE,
        NOT_APPLICABLE,
        NOT_APPLICABLE,
        NOT_APPLICABLE,
        NOT_APPLICABLE,
        RESUME_1,
    ],
    // E32: Resume AD Service, SS = 2.
    [
        NOT_APPLICABLE,
        NOT_APPLICABLE,
        NOT_APPLICABLE,
        NOT_APPLICABLE,
        NOT_APPLICABLE,
        RESUME_2,
    ],
    // E33: Resume AD Service, SS = 3.
    [
        NOT_APPLICABLE,
        NOT_APPLICABLE,
        NOT_APPLICABLE,
        NOT_APPLICABLE,
        NOT_APPLICABLE,
        RESUME_3,
    ],
    // E34: Resume AD Service, SS = 4.
    [
        NOT_APPLICABLE,
        NOT_APPLICABLE,
        NOT_APPLICABLE,
        NOT_APPLICABLE,
        NOT_APPLICABLE,
        RESUME_4,
    ],
    // E35: Set V(S) to V*(S), where SS = 0; else the row of E40 is taken.
    [
        REJECTED,
        REJECTED,
        REJECTED,
        REJECTED,
        REJECTED,
        NUMBERS_SET,
    ],
    // E36: Set FOP_Sliding_Window_Width.
    [K_SET, K_SET, K_SET, K_SET, K_SET, K_SET],
    // E37: Set T1_Initial.
    [T1_SET, T1_SET, T1_SET, T1_SET, T1_SET, T1_SET],
    // E38: Set Transmission_Limit.
    [
        LIMIT_SET, LIMIT_SET, LIMIT_SET, LIMIT_SET, LIMIT_SET, LIMIT_SET,
    ],
    // E39: Set Timeout_Type.
    [
        TIMEOUT_TYPE_SET,
        TIMEOUT_TYPE_SET,
        TIMEOUT_TYPE_SET,
        TIMEOUT_TYPE_SET,
        TIMEOUT_TYPE_SET,
        TIMEOUT_TYPE_SET,
    ],
    // E40: Invalid Directive.
    [REJECTED, REJECTED, REJECTED, REJECTED, REJECTED, REJECTED],
    // E41: AD_Accept.
    [
        AD_READY_LOOK,
        AD_READY_LOOK,
        AD_READY,
        AD_READY,
        AD_READY,
        AD_READY,
    ],
    // E42: AD_Reject.
    [
        TO_ALERT_LLIF,
        TO_ALERT_LLIF,
        TO_ALERT_LLIF,
        TO_ALERT_LLIF,
        TO_ALERT_LLIF,
        TO_ALERT_LLIF,
    ],
    // E43: BC_Accept.
    [
        BC_READY,
        BC_READY,
        BC_READY,
        BC_READY,
        BC_READY_LOOK,
        BC_READY,
    ],
    // E44: BC_Reject.
    [
        TO_ALERT_LLIF,
        TO_ALERT_LLIF,
        TO_ALERT_LLIF,
        TO_ALERT_LLIF,
        TO_ALERT_LLIF,
        TO_ALERT_LLIF,
    ],
    // E45: BD_Accept.
    [BD_READY, BD_READY, BD_READY, BD_READY, BD_READY, BD_READY],
    // E46: BD_Reject.
    [
        TO_ALERT_LLIF,
        TO_ALERT_LLIF,
        TO_ALERT_LLIF,
        TO_ALERT_LLIF,
        TO_ALERT_LLIF,
        TO_ALERT_LLIF,
    ],
    // E101: NN(R) <= N(R) < V(S), Retransmit Flag = 1, Transmission_Limit = 1, N(R) <> NN(R).
    [
        ACKNOWLEDGED_LIMIT,
        ACKNOWLEDGED_LIMIT,
        ACKNOWLEDGED_LIMIT,
        NOT_APPLICABLE,
        NOT_APPLICABLE,
        IGNORED,
    ],
    // E102: NN(R) <= N(R) < V(S), Retransmit Flag = 1, Transmission_Limit = 1, N(R) = NN(R).
    [
        TO_ALERT_LIMIT,
        TO_ALERT_LIMIT,
        TO_ALERT_LIMIT,
        NOT_APPLICABLE,
        NOT_APPLICABLE,
        IGNORED,
    ],
    // E103: as E12, Wait Flag = 1.
    [TO_S3, TO_S3, TO_S3, NOT_APPLICABLE, NOT_APPLICABLE, IGNORED],
    // E104: Timer expires, Transmission_Count < Transmission_Limit, Timeout_Type = 1.
    [AGAIN, AGAIN, IGNORED, SUSPEND_4, AGAIN_BC, NOT_APPLICABLE],
];
